// The instructions; how one is taken apart into opcode, registers and number, and put together from them.
ghost use Rattle.std.specs.Prelude.{◌≡◌, ◌∷◌, [], ◌<◌, ◌^◌};
ghost use Rattle.isa.specs.Forms.{form_of, padded, instr_of};
ghost use Rattle.isa.specs.Shapes.{Shape};

use super::opcode::OpCode;

#[derive(Clone, Copy)]
pub enum Instr {
    Halt,
    Nop,
    Mov {
        d: u8,
        a: u8,
    },
    Ldi {
        d: u8,
        imm: u64,
    },
    Ldc {
        d: u8,
        idx: u16,
    },
    Add {
        d: u8,
        a: u8,
        b: u8,
    },
    Sub {
        d: u8,
        a: u8,
        b: u8,
    },
    Mul {
        d: u8,
        a: u8,
        b: u8,
    },
    Div {
        d: u8,
        a: u8,
        b: u8,
    },
    Rem {
        d: u8,
        a: u8,
        b: u8,
    },
    AddW {
        d: u8,
        a: u8,
        b: u8,
    },
    SubW {
        d: u8,
        a: u8,
        b: u8,
    },
    MulW {
        d: u8,
        a: u8,
        b: u8,
    },
    MulHi {
        d: u8,
        a: u8,
        b: u8,
    },
    DivW {
        dlo: u8,
        dhi: u8,
        alo: u8,
        ahi: u8,
        blo: u8,
        bhi: u8,
    },
    RemW {
        dlo: u8,
        dhi: u8,
        alo: u8,
        ahi: u8,
        blo: u8,
        bhi: u8,
    },
    And {
        d: u8,
        a: u8,
        b: u8,
    },
    Or {
        d: u8,
        a: u8,
        b: u8,
    },
    Xor {
        d: u8,
        a: u8,
        b: u8,
    },
    Not {
        d: u8,
        a: u8,
    },
    Shl {
        d: u8,
        a: u8,
        b: u8,
    },
    Shr {
        d: u8,
        a: u8,
        b: u8,
    },
    Eq {
        d: u8,
        a: u8,
        b: u8,
    },
    LtU {
        d: u8,
        a: u8,
        b: u8,
    },
    GtU {
        d: u8,
        a: u8,
        b: u8,
    },
    Push {
        a: u8,
    },
    Pop {
        d: u8,
    },
    MLoad {
        d: u8,
        a: u8,
    },
    MStore {
        a: u8,
        b: u8,
    },
    Jmp {
        target: u32,
    },
    Jz {
        a: u8,
        target: u32,
    },
    Jnz {
        a: u8,
        target: u32,
    },
    Call {
        target: u32,
    },
    Ret,
    SLoad {
        d: u8,
        a: u8,
    },
    SStore {
        a: u8,
        b: u8,
    },
    Send {
        a: u8,
        b: u8,
        c: u8,
    },
    Emit {
        a: u8,
        b: u8,
        c: u8,
    },
    Hash {
        a: u8,
        b: u8,
        c: u8,
    },
    VerifyMl {
        a: u8,
        b: u8,
        c: u8,
    },
    VerifySlh {
        a: u8,
        b: u8,
        c: u8,
    },
    MerkleVerify {
        a: u8,
        b: u8,
        c: u8,
    },
    Addr {
        a: u8,
        b: u8,
        c: u8,
    },
}

// An instruction's opcode, its registers in order with zeroes after the last, and its number, 0 where it has none.
#[derive(Clone, Copy)]
pub struct Parts(pub OpCode, pub [u8; 6], pub u64);

impl Instr {
    pub fn opcode(self) -> OpCode
        ensures { result ≡ (form_of self).op }
    {
        let p = self.parts_of();
        p.0
    }

    #[tactic(auto, unfolding(crate::specs::Forms::form_of))]
    pub fn parts_of(self) -> Parts
        ensures { result ≡ padded (form_of self) }
    {
        match self {
            Instr::Halt => Parts(OpCode::Halt, [0, 0, 0, 0, 0, 0], 0),
            Instr::Nop => Parts(OpCode::Nop, [0, 0, 0, 0, 0, 0], 0),
            Instr::Mov { d, a } => Parts(OpCode::Mov, [d, a, 0, 0, 0, 0], 0),
            Instr::Ldi { d, imm } => Parts(OpCode::Ldi, [d, 0, 0, 0, 0, 0], imm),
            Instr::Ldc { d, idx } => Parts(OpCode::Ldc, [d, 0, 0, 0, 0, 0], idx as u64),
            Instr::Add { d, a, b } => Parts(OpCode::Add, [d, a, b, 0, 0, 0], 0),
            Instr::Sub { d, a, b } => Parts(OpCode::Sub, [d, a, b, 0, 0, 0], 0),
            Instr::Mul { d, a, b } => Parts(OpCode::Mul, [d, a, b, 0, 0, 0], 0),
            Instr::Div { d, a, b } => Parts(OpCode::Div, [d, a, b, 0, 0, 0], 0),
            Instr::Rem { d, a, b } => Parts(OpCode::Rem, [d, a, b, 0, 0, 0], 0),
            Instr::AddW { d, a, b } => Parts(OpCode::AddW, [d, a, b, 0, 0, 0], 0),
            Instr::SubW { d, a, b } => Parts(OpCode::SubW, [d, a, b, 0, 0, 0], 0),
            Instr::MulW { d, a, b } => Parts(OpCode::MulW, [d, a, b, 0, 0, 0], 0),
            Instr::MulHi { d, a, b } => Parts(OpCode::MulHi, [d, a, b, 0, 0, 0], 0),
            Instr::DivW {
                dlo,
                dhi,
                alo,
                ahi,
                blo,
                bhi,
            } => Parts(OpCode::DivW, [dlo, dhi, alo, ahi, blo, bhi], 0),
            Instr::RemW {
                dlo,
                dhi,
                alo,
                ahi,
                blo,
                bhi,
            } => Parts(OpCode::RemW, [dlo, dhi, alo, ahi, blo, bhi], 0),
            Instr::And { d, a, b } => Parts(OpCode::And, [d, a, b, 0, 0, 0], 0),
            Instr::Or { d, a, b } => Parts(OpCode::Or, [d, a, b, 0, 0, 0], 0),
            Instr::Xor { d, a, b } => Parts(OpCode::Xor, [d, a, b, 0, 0, 0], 0),
            Instr::Not { d, a } => Parts(OpCode::Not, [d, a, 0, 0, 0, 0], 0),
            Instr::Shl { d, a, b } => Parts(OpCode::Shl, [d, a, b, 0, 0, 0], 0),
            Instr::Shr { d, a, b } => Parts(OpCode::Shr, [d, a, b, 0, 0, 0], 0),
            Instr::Eq { d, a, b } => Parts(OpCode::Eq, [d, a, b, 0, 0, 0], 0),
            Instr::LtU { d, a, b } => Parts(OpCode::LtU, [d, a, b, 0, 0, 0], 0),
            Instr::GtU { d, a, b } => Parts(OpCode::GtU, [d, a, b, 0, 0, 0], 0),
            Instr::Push { a } => Parts(OpCode::Push, [a, 0, 0, 0, 0, 0], 0),
            Instr::Pop { d } => Parts(OpCode::Pop, [d, 0, 0, 0, 0, 0], 0),
            Instr::MLoad { d, a } => Parts(OpCode::MLoad, [d, a, 0, 0, 0, 0], 0),
            Instr::MStore { a, b } => Parts(OpCode::MStore, [a, b, 0, 0, 0, 0], 0),
            Instr::Jmp { target } => Parts(OpCode::Jmp, [0, 0, 0, 0, 0, 0], target as u64),
            Instr::Jz { a, target } => Parts(OpCode::Jz, [a, 0, 0, 0, 0, 0], target as u64),
            Instr::Jnz { a, target } => Parts(OpCode::Jnz, [a, 0, 0, 0, 0, 0], target as u64),
            Instr::Call { target } => Parts(OpCode::Call, [0, 0, 0, 0, 0, 0], target as u64),
            Instr::Ret => Parts(OpCode::Ret, [0, 0, 0, 0, 0, 0], 0),
            Instr::SLoad { d, a } => Parts(OpCode::SLoad, [d, a, 0, 0, 0, 0], 0),
            Instr::SStore { a, b } => Parts(OpCode::SStore, [a, b, 0, 0, 0, 0], 0),
            Instr::Send { a, b, c } => Parts(OpCode::Send, [a, b, c, 0, 0, 0], 0),
            Instr::Emit { a, b, c } => Parts(OpCode::Emit, [a, b, c, 0, 0, 0], 0),
            Instr::Hash { a, b, c } => Parts(OpCode::Hash, [a, b, c, 0, 0, 0], 0),
            Instr::VerifyMl { a, b, c } => Parts(OpCode::VerifyMl, [a, b, c, 0, 0, 0], 0),
            Instr::VerifySlh { a, b, c } => Parts(OpCode::VerifySlh, [a, b, c, 0, 0, 0], 0),
            Instr::MerkleVerify { a, b, c } => Parts(OpCode::MerkleVerify, [a, b, c, 0, 0, 0], 0),
            Instr::Addr { a, b, c } => Parts(OpCode::Addr, [a, b, c, 0, 0, 0], 0),
        }
    }
}

// The instruction of an opcode, by its shape: of no register and no number.
#[tactic(auto, unfolding(crate::specs::Table::row_of, crate::specs::Forms::instr_of))]
pub fn plain(op: OpCode) -> Instr
    ensures { Shape op 0 0 → result ≡ instr_of op [] 0 }
{
    match op {
        OpCode::Halt => Instr::Halt,
        OpCode::Nop => Instr::Nop,
        _ => Instr::Ret,
    }
}

// Of a number of four bytes.
#[tactic(auto, unfolding(crate::specs::Table::row_of, crate::specs::Forms::instr_of))]
pub fn jump(op: OpCode, num: u64) -> Instr
    ensures { Shape op 0 4 → num < 256 ^ 4 → result ≡ instr_of op [] num }
{
    match op {
        OpCode::Jmp => Instr::Jmp {
            target: (num % 4294967296) as u32,
        },
        _ => Instr::Call {
            target: (num % 4294967296) as u32,
        },
    }
}

// Of one register.
#[tactic(auto, unfolding(crate::specs::Table::row_of, crate::specs::Forms::instr_of))]
pub fn with_one(op: OpCode, r0: u8) -> Instr
    ensures { Shape op 1 0 → result ≡ instr_of op (r0 ∷ []) 0 }
{
    match op {
        OpCode::Push => Instr::Push { a: r0 },
        _ => Instr::Pop { d: r0 },
    }
}

// Of one register and a number of four bytes.
#[tactic(auto, unfolding(crate::specs::Table::row_of, crate::specs::Forms::instr_of))]
pub fn branch(op: OpCode, r0: u8, num: u64) -> Instr
    ensures { Shape op 1 4 → num < 256 ^ 4 → result ≡ instr_of op (r0 ∷ []) num }
{
    match op {
        OpCode::Jz => Instr::Jz {
            a: r0,
            target: (num % 4294967296) as u32,
        },
        _ => Instr::Jnz {
            a: r0,
            target: (num % 4294967296) as u32,
        },
    }
}

// Of two registers.
#[tactic(auto, unfolding(crate::specs::Table::row_of, crate::specs::Forms::instr_of))]
pub fn with_two(op: OpCode, r0: u8, r1: u8) -> Instr
    ensures { Shape op 2 0 → result ≡ instr_of op (r0 ∷ r1 ∷ []) 0 }
{
    match op {
        OpCode::Mov => Instr::Mov { d: r0, a: r1 },
        OpCode::Not => Instr::Not { d: r0, a: r1 },
        OpCode::MLoad => Instr::MLoad { d: r0, a: r1 },
        OpCode::MStore => Instr::MStore { a: r0, b: r1 },
        OpCode::SLoad => Instr::SLoad { d: r0, a: r1 },
        _ => Instr::SStore { a: r0, b: r1 },
    }
}

// Of three registers.
#[tactic(auto, unfolding(crate::specs::Table::row_of, crate::specs::Forms::instr_of))]
pub fn with_three(op: OpCode, r0: u8, r1: u8, r2: u8) -> Instr
    ensures { Shape op 3 0 → result ≡ instr_of op (r0 ∷ r1 ∷ r2 ∷ []) 0 }
{
    match op {
        OpCode::Add => Instr::Add {
            d: r0,
            a: r1,
            b: r2,
        },
        OpCode::Sub => Instr::Sub {
            d: r0,
            a: r1,
            b: r2,
        },
        OpCode::Mul => Instr::Mul {
            d: r0,
            a: r1,
            b: r2,
        },
        OpCode::Div => Instr::Div {
            d: r0,
            a: r1,
            b: r2,
        },
        OpCode::Rem => Instr::Rem {
            d: r0,
            a: r1,
            b: r2,
        },
        OpCode::AddW => Instr::AddW {
            d: r0,
            a: r1,
            b: r2,
        },
        OpCode::SubW => Instr::SubW {
            d: r0,
            a: r1,
            b: r2,
        },
        OpCode::MulW => Instr::MulW {
            d: r0,
            a: r1,
            b: r2,
        },
        OpCode::MulHi => Instr::MulHi {
            d: r0,
            a: r1,
            b: r2,
        },
        OpCode::And => Instr::And {
            d: r0,
            a: r1,
            b: r2,
        },
        OpCode::Or => Instr::Or {
            d: r0,
            a: r1,
            b: r2,
        },
        OpCode::Xor => Instr::Xor {
            d: r0,
            a: r1,
            b: r2,
        },
        OpCode::Shl => Instr::Shl {
            d: r0,
            a: r1,
            b: r2,
        },
        OpCode::Shr => Instr::Shr {
            d: r0,
            a: r1,
            b: r2,
        },
        OpCode::Eq => Instr::Eq {
            d: r0,
            a: r1,
            b: r2,
        },
        OpCode::LtU => Instr::LtU {
            d: r0,
            a: r1,
            b: r2,
        },
        OpCode::GtU => Instr::GtU {
            d: r0,
            a: r1,
            b: r2,
        },
        OpCode::Send => Instr::Send {
            a: r0,
            b: r1,
            c: r2,
        },
        OpCode::Emit => Instr::Emit {
            a: r0,
            b: r1,
            c: r2,
        },
        OpCode::Hash => Instr::Hash {
            a: r0,
            b: r1,
            c: r2,
        },
        OpCode::VerifyMl => Instr::VerifyMl {
            a: r0,
            b: r1,
            c: r2,
        },
        OpCode::VerifySlh => Instr::VerifySlh {
            a: r0,
            b: r1,
            c: r2,
        },
        OpCode::MerkleVerify => Instr::MerkleVerify {
            a: r0,
            b: r1,
            c: r2,
        },
        _ => Instr::Addr {
            a: r0,
            b: r1,
            c: r2,
        },
    }
}

// Of six registers.
#[tactic(auto, unfolding(crate::specs::Table::row_of, crate::specs::Forms::instr_of))]
pub fn with_six(op: OpCode, r0: u8, r1: u8, r2: u8, r3: u8, r4: u8, r5: u8) -> Instr
    ensures { Shape op 6 0 → result ≡ instr_of op (r0 ∷ r1 ∷ r2 ∷ r3 ∷ r4 ∷ r5 ∷ []) 0 }
{
    match op {
        OpCode::DivW => Instr::DivW {
            dlo: r0,
            dhi: r1,
            alo: r2,
            ahi: r3,
            blo: r4,
            bhi: r5,
        },
        _ => Instr::RemW {
            dlo: r0,
            dhi: r1,
            alo: r2,
            ahi: r3,
            blo: r4,
            bhi: r5,
        },
    }
}
