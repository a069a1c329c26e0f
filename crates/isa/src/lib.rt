// The instruction set: the opcode table, and how an instruction is read from bytes and written as bytes.
#![tactic(auto)]

pub mod codec;
pub mod cursor;
pub mod flow;
pub mod instr;
pub mod opcode;
