// Rows of recorded replies.
#![tactic(auto)]

pub mod reply;
pub mod rows;
