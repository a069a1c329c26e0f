// Instructions that move words: constants, the stack, memory; and jumps.
#![tactic(auto)]

pub mod jumps;
pub mod moves;
