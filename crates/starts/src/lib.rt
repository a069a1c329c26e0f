// Instruction starts: the code read from place to place, and its starts marked in a map of bits.
#![tactic(auto)]

pub mod marks;
pub mod scan;
pub mod scan_answers;
