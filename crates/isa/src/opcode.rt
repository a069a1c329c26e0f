// The opcodes, each with its byte, its length and its base price.
ghost use Rattle.std.specs.Prelude.{◌≡◌};
ghost use Rattle.isa.specs.Table.{row_of, byte_of, regs_of, wide_of, length_of, price_of, op_at};
ghost use Rattle.isa.specs.Kinds.{kind_of, register_op};

#[derive(Clone, Copy)]
pub enum OpCode {
    Halt,
    Nop,
    Mov,
    Ldi,
    Ldc,
    Add,
    Sub,
    Mul,
    Div,
    Rem,
    AddW,
    SubW,
    MulW,
    MulHi,
    DivW,
    RemW,
    And,
    Or,
    Xor,
    Not,
    Shl,
    Shr,
    Eq,
    LtU,
    GtU,
    Push,
    Pop,
    MLoad,
    MStore,
    Jmp,
    Jz,
    Jnz,
    Call,
    Ret,
    SLoad,
    SStore,
    Send,
    Emit,
    Hash,
    VerifyMl,
    VerifySlh,
    MerkleVerify,
    Addr,
}

// What the table says of an opcode: its byte, how many registers it names, how many bytes of number follow them, its base price.
#[derive(Clone, Copy)]
pub struct OpRow(pub u8, pub usize, pub usize, pub u64);

// Opcodes that work on registers alone; Ldc, which names a constant; the others.
#[derive(Clone, Copy, Debug, PartialEq, Eq)]
pub enum Kind {
    Registers,
    Constant,
    Other,
}

impl OpCode {
    // Registers are below this.
    pub const NUM_REGS: u8 = 16;
    // No instruction is longer.
    pub const MAX_LENGTH: usize = 10;

    #[tactic(auto, unfolding(crate::specs::Table::row_of, crate::specs::Table::op_with, crate::specs::Table::op_at))]
    pub fn from_byte(b: u8) -> Option<OpCode>
        ensures { result ≡ op_at b }
    {
        match b {
            0 => Some(OpCode::Halt),
            1 => Some(OpCode::Nop),
            2 => Some(OpCode::Mov),
            3 => Some(OpCode::Ldi),
            4 => Some(OpCode::Ldc),
            16 => Some(OpCode::Add),
            17 => Some(OpCode::Sub),
            18 => Some(OpCode::Mul),
            19 => Some(OpCode::Div),
            20 => Some(OpCode::Rem),
            24 => Some(OpCode::AddW),
            25 => Some(OpCode::SubW),
            26 => Some(OpCode::MulW),
            27 => Some(OpCode::MulHi),
            28 => Some(OpCode::DivW),
            29 => Some(OpCode::RemW),
            32 => Some(OpCode::And),
            33 => Some(OpCode::Or),
            34 => Some(OpCode::Xor),
            35 => Some(OpCode::Not),
            36 => Some(OpCode::Shl),
            37 => Some(OpCode::Shr),
            40 => Some(OpCode::Eq),
            41 => Some(OpCode::LtU),
            42 => Some(OpCode::GtU),
            48 => Some(OpCode::Push),
            49 => Some(OpCode::Pop),
            56 => Some(OpCode::MLoad),
            57 => Some(OpCode::MStore),
            64 => Some(OpCode::Jmp),
            65 => Some(OpCode::Jz),
            66 => Some(OpCode::Jnz),
            67 => Some(OpCode::Call),
            68 => Some(OpCode::Ret),
            80 => Some(OpCode::SLoad),
            81 => Some(OpCode::SStore),
            96 => Some(OpCode::Send),
            97 => Some(OpCode::Emit),
            112 => Some(OpCode::Hash),
            113 => Some(OpCode::VerifyMl),
            114 => Some(OpCode::VerifySlh),
            115 => Some(OpCode::MerkleVerify),
            118 => Some(OpCode::Addr),
            _ => None,
        }
    }

    #[tactic(auto, unfolding(crate::specs::Table::row_of))]
    pub fn row(self) -> OpRow
        ensures { result ≡ row_of self }
    {
        match self {
            OpCode::Halt => OpRow(0, 0, 0, 0),
            OpCode::Nop => OpRow(1, 0, 0, 1),
            OpCode::Mov => OpRow(2, 2, 0, 1),
            OpCode::Ldi => OpRow(3, 1, 8, 1),
            OpCode::Ldc => OpRow(4, 1, 2, 1),
            OpCode::Add => OpRow(16, 3, 0, 2),
            OpCode::Sub => OpRow(17, 3, 0, 2),
            OpCode::Mul => OpRow(18, 3, 0, 3),
            OpCode::Div => OpRow(19, 3, 0, 4),
            OpCode::Rem => OpRow(20, 3, 0, 4),
            OpCode::AddW => OpRow(24, 3, 0, 2),
            OpCode::SubW => OpRow(25, 3, 0, 2),
            OpCode::MulW => OpRow(26, 3, 0, 3),
            OpCode::MulHi => OpRow(27, 3, 0, 3),
            OpCode::DivW => OpRow(28, 6, 0, 8),
            OpCode::RemW => OpRow(29, 6, 0, 8),
            OpCode::And => OpRow(32, 3, 0, 1),
            OpCode::Or => OpRow(33, 3, 0, 1),
            OpCode::Xor => OpRow(34, 3, 0, 1),
            OpCode::Not => OpRow(35, 2, 0, 1),
            OpCode::Shl => OpRow(36, 3, 0, 1),
            OpCode::Shr => OpRow(37, 3, 0, 1),
            OpCode::Eq => OpRow(40, 3, 0, 1),
            OpCode::LtU => OpRow(41, 3, 0, 1),
            OpCode::GtU => OpRow(42, 3, 0, 1),
            OpCode::Push => OpRow(48, 1, 0, 2),
            OpCode::Pop => OpRow(49, 1, 0, 2),
            OpCode::MLoad => OpRow(56, 2, 0, 3),
            OpCode::MStore => OpRow(57, 2, 0, 3),
            OpCode::Jmp => OpRow(64, 0, 4, 2),
            OpCode::Jz => OpRow(65, 1, 4, 2),
            OpCode::Jnz => OpRow(66, 1, 4, 2),
            OpCode::Call => OpRow(67, 0, 4, 3),
            OpCode::Ret => OpRow(68, 0, 0, 2),
            OpCode::SLoad => OpRow(80, 2, 0, 100),
            OpCode::SStore => OpRow(81, 2, 0, 500),
            OpCode::Send => OpRow(96, 3, 0, 200),
            OpCode::Emit => OpRow(97, 3, 0, 200),
            OpCode::Hash => OpRow(112, 3, 0, 200),
            OpCode::VerifyMl => OpRow(113, 3, 0, 60000),
            OpCode::VerifySlh => OpRow(114, 3, 0, 340000),
            OpCode::MerkleVerify => OpRow(115, 3, 0, 512),
            OpCode::Addr => OpRow(118, 3, 0, 4000),
        }
    }

    pub fn byte(self) -> u8
        ensures { result ≡ byte_of self }
    {
        let row = self.row();
        row.0
    }

    pub fn registers(self) -> usize
        ensures { result ≡ regs_of self }
    {
        let row = self.row();
        row.1
    }

    pub fn wide(self) -> usize
        ensures { result ≡ wide_of self }
    {
        let row = self.row();
        row.2
    }

    pub fn length(self) -> usize
        ensures { result ≡ length_of self }
    {
        let row = self.row();
        1 + row.1 + row.2
    }

    pub fn price(self) -> u64
        ensures { result ≡ price_of self }
    {
        let row = self.row();
        row.3
    }

    #[tactic(auto, unfolding(crate::specs::Kinds::kind_of))]
    pub fn kind(self) -> Kind
        ensures { result ≡ kind_of self }
    {
        match self {
            OpCode::Mov
            | OpCode::Ldi
            | OpCode::Add
            | OpCode::Sub
            | OpCode::Mul
            | OpCode::Div
            | OpCode::Rem
            | OpCode::AddW
            | OpCode::SubW
            | OpCode::MulW
            | OpCode::MulHi
            | OpCode::DivW
            | OpCode::RemW
            | OpCode::And
            | OpCode::Or
            | OpCode::Xor
            | OpCode::Not
            | OpCode::Shl
            | OpCode::Shr
            | OpCode::Eq
            | OpCode::LtU
            | OpCode::GtU => Kind::Registers,
            OpCode::Ldc => Kind::Constant,
            _ => Kind::Other,
        }
    }

    // Mov, Ldi and Add to GtU.
    pub fn is_register_op(self) -> bool
        ensures { result ≡ register_op self }
    {
        self.kind() == Kind::Registers
    }
}
