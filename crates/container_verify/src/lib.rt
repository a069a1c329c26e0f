// What a container must be to be run.
#![tactic(auto)]

pub mod entry_checks;
pub mod targets;
pub mod verify;
