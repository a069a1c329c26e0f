// Opening a call: what it is given is checked, and the entry found, before anything lent is touched.
#![tactic(auto)]

pub mod entry;
pub mod lent;
pub mod open;
pub mod unique_entry;
pub mod unmapped;
