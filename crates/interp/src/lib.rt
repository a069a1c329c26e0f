// Opening and running a call.
#![tactic(auto)]

pub mod answer;
mod begin;
mod buffers;
pub mod call;
mod enter;
mod exec;
mod fetch;
mod finish;
mod program;
mod registers;
mod step;
mod work;
