// Writing a container's canonical bytes.
#![tactic(auto)]

pub mod writer;
