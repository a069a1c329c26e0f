// Numbers as bytes, numbers of two words, and refusals in numbers.
#![tactic(auto)]

pub mod bytes;
pub mod descend;
pub mod divide;
pub mod laid;
pub mod product;
pub mod refusal;
