// What the two programs print, line by line: verdict of a container, settle of a call.
#![tactic(auto)]

pub mod answer;
pub mod effect;
pub mod names;
pub mod verdict;

// A line takes no more; an effect's alone goes by its bytes.
pub const LINE: usize = 96;
