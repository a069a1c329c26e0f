// What a run knows of a key: its value, its rights, whether it paid as fresh. Sorted tables in lent bytes stand behind it.
#![tactic(auto)]

pub mod authorise;
pub mod counts;
pub mod load;
pub mod look;
pub mod rights;
mod room;
pub mod slots;
pub mod store;
