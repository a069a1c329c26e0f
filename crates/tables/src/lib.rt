// Sorted rows in lent bytes.
#![tactic(auto)]

pub mod check;
pub mod order;
pub mod rows;
pub mod store;
