// Crypto instructions: a price, then the next recorded reply; a Hash may authorise the key at its output.
#![tactic(auto)]

mod ask;
pub mod check;
pub mod hash;
mod taint;
