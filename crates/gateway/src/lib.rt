// The C boundary: numbers pass as themselves, a slice as a pointer and a length in elements, an answer as words in a lent slice.
#![tactic(auto)]

mod answer;
pub mod calls;
pub mod containers;
pub mod settled;
