// What an instruction does, by group: the operands that are left once its group is known.
ghost use Rattle.std.specs.Prelude.{◌≡◌};
ghost use Rattle.machine.specs.Actions.{action_of};

use isa::instr::Instr;

// Constants, the stack, memory.
#[derive(Clone, Copy)]
pub enum Move {
    Ldc(u8, usize),
    Push(u8),
    Pop(u8),
    MLoad(u8, u8),
    MStore(u8, u8),
}

#[derive(Clone, Copy)]
pub enum Jump {
    Jmp(u64),
    Jz(u8, u64),
    Jnz(u8, u64),
    Call(u64),
    Ret,
}

#[derive(Clone, Copy)]
pub enum Access {
    SLoad(u8, u8),
    SStore(u8, u8),
}

#[derive(Clone, Copy)]
pub enum Post {
    Send(u8, u8, u8),
    Emit(u8, u8, u8),
}

// Crypto instructions that only take a reply; the register whose value their price goes by.
#[derive(Clone, Copy)]
pub enum Check {
    VerifyMl(u8),
    VerifySlh(u8),
    MerkleVerify(u8),
    Addr,
}

#[derive(Clone, Copy)]
pub enum Action {
    Halt,
    Nop,
    Registers,
    Moves(Move),
    Jumps(Jump),
    Storage(Access),
    Posts(Post),
    Hash(u8, u8, u8),
    Checks(Check),
}

#[tactic(auto, unfolding(crate::specs::Actions::action_of))]
pub fn action_of(i: Instr) -> Action
    ensures { result ≡ action_of i }
{
    match i {
        Instr::Halt => Action::Halt,
        Instr::Nop => Action::Nop,
        Instr::Mov { d: _, a: _ } => Action::Registers,
        Instr::Ldi { d: _, imm: _ } => Action::Registers,
        Instr::Ldc { d, idx } => Action::Moves(Move::Ldc(d, idx as usize)),
        Instr::Add { d: _, a: _, b: _ } => Action::Registers,
        Instr::Sub { d: _, a: _, b: _ } => Action::Registers,
        Instr::Mul { d: _, a: _, b: _ } => Action::Registers,
        Instr::Div { d: _, a: _, b: _ } => Action::Registers,
        Instr::Rem { d: _, a: _, b: _ } => Action::Registers,
        Instr::AddW { d: _, a: _, b: _ } => Action::Registers,
        Instr::SubW { d: _, a: _, b: _ } => Action::Registers,
        Instr::MulW { d: _, a: _, b: _ } => Action::Registers,
        Instr::MulHi { d: _, a: _, b: _ } => Action::Registers,
        Instr::DivW {
            dlo: _,
            dhi: _,
            alo: _,
            ahi: _,
            blo: _,
            bhi: _,
        } => Action::Registers,
        Instr::RemW {
            dlo: _,
            dhi: _,
            alo: _,
            ahi: _,
            blo: _,
            bhi: _,
        } => Action::Registers,
        Instr::And { d: _, a: _, b: _ } => Action::Registers,
        Instr::Or { d: _, a: _, b: _ } => Action::Registers,
        Instr::Xor { d: _, a: _, b: _ } => Action::Registers,
        Instr::Not { d: _, a: _ } => Action::Registers,
        Instr::Shl { d: _, a: _, b: _ } => Action::Registers,
        Instr::Shr { d: _, a: _, b: _ } => Action::Registers,
        Instr::Eq { d: _, a: _, b: _ } => Action::Registers,
        Instr::LtU { d: _, a: _, b: _ } => Action::Registers,
        Instr::GtU { d: _, a: _, b: _ } => Action::Registers,
        Instr::Push { a } => Action::Moves(Move::Push(a)),
        Instr::Pop { d } => Action::Moves(Move::Pop(d)),
        Instr::MLoad { d, a } => Action::Moves(Move::MLoad(d, a)),
        Instr::MStore { a, b } => Action::Moves(Move::MStore(a, b)),
        Instr::Jmp { target } => Action::Jumps(Jump::Jmp(target as u64)),
        Instr::Jz { a, target } => Action::Jumps(Jump::Jz(a, target as u64)),
        Instr::Jnz { a, target } => Action::Jumps(Jump::Jnz(a, target as u64)),
        Instr::Call { target } => Action::Jumps(Jump::Call(target as u64)),
        Instr::Ret => Action::Jumps(Jump::Ret),
        Instr::SLoad { d, a } => Action::Storage(Access::SLoad(d, a)),
        Instr::SStore { a, b } => Action::Storage(Access::SStore(a, b)),
        Instr::Send { a, b, c } => Action::Posts(Post::Send(a, b, c)),
        Instr::Emit { a, b, c } => Action::Posts(Post::Emit(a, b, c)),
        Instr::Hash { a, b, c } => Action::Hash(a, b, c),
        Instr::VerifyMl { a: _, b, c: _ } => Action::Checks(Check::VerifyMl(b)),
        Instr::VerifySlh { a: _, b, c: _ } => Action::Checks(Check::VerifySlh(b)),
        Instr::MerkleVerify { a: _, b, c: _ } => Action::Checks(Check::MerkleVerify(b)),
        Instr::Addr { a: _, b: _, c: _ } => Action::Checks(Check::Addr),
    }
}
