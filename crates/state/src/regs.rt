// The register file and its operations: each hands the file back.
ghost use Rattle.std.specs.Prelude.{◌≡◌, ◌+◌, ◌*◌, ◌^◌, ◌==◌, slice_index};
ghost use Rattle.words.specs.Wide.{wide};
ghost use Rattle.state.specs.Regs.{cleared, file, reg, set_reg, set_wide, rule_two, rule_wide, applied, register_step};

use super::alu::{Op, Wanted};
use super::fault::Fault;
use isa::instr::Instr;
use words::product::Wide;

#[derive(Clone, Copy)]
pub struct RegFile {
    pub r: [u64; 16],
}

// The file after an operation, and the operation's fault, which leaves the file as it was. No Result: the file goes back with a fault too.
#[derive(Clone, Copy)]
pub struct Stepped {
    pub file: RegFile,
    pub fault: Option<Fault>,
}

// What an operation does: a word into a register, or two words into two.
#[derive(Clone, Copy)]
pub enum Outcome {
    Put(u8, u64),
    PutWide(u8, u8, Wide),
}

// A register, read where it stands; past the last 0.
pub fn read(r: &[u64], i: u8) -> u64
    ensures { result ≡ slice_index r.now i }
{
    let k = i as usize;
    if k < r.len() { r[k] } else { 0 }
}

// Two registers as one number.
fn pair(r: &[u64], lo: u8, hi: u8) -> Wide
    ensures { wide result ≡ slice_index r.now hi * 2 ^ 64 + slice_index r.now lo }
{
    Wide {
        hi: read(r, hi),
        lo: read(r, lo),
    }
}

// No plainer by a derived equality: the clause is the number's.
fn is_zero(w: Wide) -> bool
    ensures { result ≡ (wide w == 0) }
{
    w.hi == 0 && w.lo == 0
}

// An operation on two registers. A match: by `?` the value goes through memory once more.
fn two(r: &[u64], op: Op, d: u8, a: u8, b: u8) -> Result<Outcome, Fault>
    ensures { applied (file r.now) result ≡ rule_two op (file r.now) d a b }
{
    match super::alu::alu(op, read(r, a), read(r, b)) {
        Ok(v) => Ok(Outcome::Put(d, v)),
        Err(fault) => Err(fault),
    }
}

// A division of two words by two: the Rust's six registers, by its names.
fn divide(
    r: &[u64],
    want: Wanted,
    dlo: u8,
    dhi: u8,
    alo: u8,
    ahi: u8,
    blo: u8,
    bhi: u8,
) -> Result<Outcome, Fault>
    ensures { applied (file r.now) result ≡ rule_wide want (file r.now) dlo dhi alo ahi blo bhi }
{
    let n = pair(r, alo, ahi);
    let d = pair(r, blo, bhi);
    if is_zero(d) {
        return Err(Fault::DivByZero);
    }
    let w = super::alu::divide_wide(want, n, d);
    Ok(Outcome::PutWide(dlo, dhi, w))
}

// What an instruction does to registers that stand in a slice.
#[tactic(auto, unfolding(crate::specs::Regs::register_step))]
pub fn operate(r: &[u64], i: Instr) -> Result<Outcome, Fault>
    ensures { applied (file r.now) result ≡ register_step i (file r.now) }
{
    match i {
        Instr::Halt => Err(Fault::NotRegister),
        Instr::Nop => Err(Fault::NotRegister),
        Instr::Mov { d, a } => Ok(Outcome::Put(d, read(r, a))),
        Instr::Ldi { d, imm } => Ok(Outcome::Put(d, imm)),
        Instr::Ldc { d: _, idx: _ } => Err(Fault::NotRegister),
        Instr::Add { d, a, b } => two(r, Op::Add, d, a, b),
        Instr::Sub { d, a, b } => two(r, Op::Sub, d, a, b),
        Instr::Mul { d, a, b } => two(r, Op::Mul, d, a, b),
        Instr::Div { d, a, b } => two(r, Op::Div, d, a, b),
        Instr::Rem { d, a, b } => two(r, Op::Rem, d, a, b),
        Instr::AddW { d, a, b } => two(r, Op::AddW, d, a, b),
        Instr::SubW { d, a, b } => two(r, Op::SubW, d, a, b),
        Instr::MulW { d, a, b } => two(r, Op::MulW, d, a, b),
        Instr::MulHi { d, a, b } => two(r, Op::MulHi, d, a, b),
        Instr::DivW {
            dlo,
            dhi,
            alo,
            ahi,
            blo,
            bhi,
        } => divide(r, Wanted::Quotient, dlo, dhi, alo, ahi, blo, bhi),
        Instr::RemW {
            dlo,
            dhi,
            alo,
            ahi,
            blo,
            bhi,
        } => divide(r, Wanted::Rest, dlo, dhi, alo, ahi, blo, bhi),
        Instr::And { d, a, b } => two(r, Op::And, d, a, b),
        Instr::Or { d, a, b } => two(r, Op::Or, d, a, b),
        Instr::Xor { d, a, b } => two(r, Op::Xor, d, a, b),
        Instr::Not { d, a } => Ok(Outcome::Put(d, !read(r, a))),
        Instr::Shl { d, a, b } => two(r, Op::Shl, d, a, b),
        Instr::Shr { d, a, b } => two(r, Op::Shr, d, a, b),
        Instr::Eq { d, a, b } => two(r, Op::Eq, d, a, b),
        Instr::LtU { d, a, b } => two(r, Op::LtU, d, a, b),
        Instr::GtU { d, a, b } => two(r, Op::GtU, d, a, b),
        Instr::Push { a: _ } => Err(Fault::NotRegister),
        Instr::Pop { d: _ } => Err(Fault::NotRegister),
        Instr::MLoad { d: _, a: _ } => Err(Fault::NotRegister),
        Instr::MStore { a: _, b: _ } => Err(Fault::NotRegister),
        Instr::Jmp { target: _ } => Err(Fault::NotRegister),
        Instr::Jz { a: _, target: _ } => Err(Fault::NotRegister),
        Instr::Jnz { a: _, target: _ } => Err(Fault::NotRegister),
        Instr::Call { target: _ } => Err(Fault::NotRegister),
        Instr::Ret => Err(Fault::NotRegister),
        Instr::SLoad { d: _, a: _ } => Err(Fault::NotRegister),
        Instr::SStore { a: _, b: _ } => Err(Fault::NotRegister),
        Instr::Send { a: _, b: _, c: _ } => Err(Fault::NotRegister),
        Instr::Emit { a: _, b: _, c: _ } => Err(Fault::NotRegister),
        Instr::Hash { a: _, b: _, c: _ } => Err(Fault::NotRegister),
        Instr::VerifyMl { a: _, b: _, c: _ } => Err(Fault::NotRegister),
        Instr::VerifySlh { a: _, b: _, c: _ } => Err(Fault::NotRegister),
        Instr::MerkleVerify { a: _, b: _, c: _ } => Err(Fault::NotRegister),
        Instr::Addr { a: _, b: _, c: _ } => Err(Fault::NotRegister),
    }
}

impl RegFile {
    pub fn new() -> RegFile
        ensures { result ≡ cleared }
    {
        let r = [0; 16];
        RegFile { r }
    }

    pub fn reg(self, i: u8) -> u64
        ensures { result ≡ reg self i }
    {
        read(&self.r, i)
    }

    pub fn set_reg(mut self, i: u8, v: u64) -> Self
        ensures { result ≡ set_reg self i v }
    {
        let at = i as usize;
        if at < 16 {
            self.r[at] = v;
        }
        self
    }

    // A number into two registers, the low word first.
    pub fn set_wide(mut self, lo: u8, hi: u8, w: Wide) -> Self
        ensures { result ≡ set_wide self lo hi (wide w) }
    {
        let f = self.set_reg(lo, w.lo);
        f.set_reg(hi, w.hi)
    }

    // One instruction, if it is a register operation.
    pub fn step(mut self, i: Instr) -> Stepped
        ensures { result ≡ register_step i self }
    {
        match operate(&self.r, i) {
            Ok(Outcome::Put(d, v)) => Stepped {
                file: self.set_reg(d, v),
                fault: None,
            },
            Ok(Outcome::PutWide(lo, hi, w)) => Stepped {
                file: self.set_wide(lo, hi, w),
                fault: None,
            },
            Err(fault) => Stepped {
                file: self,
                fault: Some(fault),
            },
        }
    }
}
