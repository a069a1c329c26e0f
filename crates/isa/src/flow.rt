// Where control goes after an instruction, and what the instruction refers to.
ghost use Rattle.std.specs.Prelude.{◌≡◌};
ghost use Rattle.isa.specs.Flow.{flow_of};
ghost use Rattle.isa.specs.Refers.{aim_of, refers_to};

use super::instr::Instr;
use super::opcode::{Kind, OpCode};

// On to the next instruction, to the run's end, to a place, to a place or the next, to a place and later back, or back.
#[derive(Clone, Copy)]
pub enum Flow {
    Next,
    Stop,
    Jump(u64),
    Branch(u64),
    Enter(u64),
    Return,
}

#[derive(Clone, Copy)]
pub enum Refers {
    Const(u64),
    Target(u64),
    Nothing,
}

impl Flow {
    // The place that it names.
    #[tactic(auto, unfolding(crate::specs::Refers::aim_of))]
    fn aim(self) -> Refers
        ensures { result ≡ aim_of self }
    {
        match self {
            Flow::Next => Refers::Nothing,
            Flow::Stop => Refers::Nothing,
            Flow::Jump(place) => Refers::Target(place),
            Flow::Branch(place) => Refers::Target(place),
            Flow::Enter(place) => Refers::Target(place),
            Flow::Return => Refers::Nothing,
        }
    }
}

impl Instr {
    pub fn flow(self) -> Flow
        ensures { result ≡ flow_of self }
    {
        let p = self.parts_of();
        let op = p.0;
        let number = p.2;
        match op {
            OpCode::Halt => Flow::Stop,
            OpCode::Jmp => Flow::Jump(number),
            OpCode::Jz => Flow::Branch(number),
            OpCode::Jnz => Flow::Branch(number),
            OpCode::Call => Flow::Enter(number),
            OpCode::Ret => Flow::Return,
            _ => Flow::Next,
        }
    }

    pub fn refers(self) -> Refers
        ensures { result ≡ refers_to self }
    {
        let p = self.parts_of();
        let op = p.0;
        let kind = op.kind();
        match kind {
            Kind::Registers => Refers::Nothing,
            Kind::Constant => Refers::Const(p.2),
            Kind::Other => self.flow().aim(),
        }
    }
}
