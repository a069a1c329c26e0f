// The effect log: records whose trailers point back, and the durable targets that they hold.
#![tactic(auto)]

pub mod counts;
pub mod log;
pub mod targets;
pub mod trailer;
