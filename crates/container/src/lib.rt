// Containers, read where they stand in bytes.
#![tactic(auto)]

pub mod entries;
pub mod offsets;
pub mod reader;
