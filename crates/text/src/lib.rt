// Text in lent bytes: numbers in decimal, bytes in hexadecimal, and a number read from its digits.
#![tactic(auto)]

pub mod decimal;
pub mod hex;
pub mod number;
