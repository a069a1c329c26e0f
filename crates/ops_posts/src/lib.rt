// Send and Emit: what an effect costs, and its record in the log.
#![tactic(auto)]

pub mod post;
pub mod prices;
