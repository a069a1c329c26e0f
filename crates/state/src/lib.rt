// What an instruction works on: registers, memory and stack.
#![tactic(auto)]

pub mod alu;
pub mod bench;
pub mod fault;
pub mod memory;
pub mod regs;
pub mod stack;
