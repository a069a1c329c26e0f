// A run's state and what one turn does to it.
#![tactic(auto)]

pub mod action;
pub mod host;
pub mod run;
pub mod turn;
