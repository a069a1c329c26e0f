// Reading an instruction from bytes, and writing it as bytes.
ghost use Rattle.std.specs.Prelude.{◌≡◌, ◌∷◌, ◌++◌, ◌+◌, ◌≤◌, length, take, drop, is_none, true};
ghost use Rattle.words.specs.Bytes.{be_bytes};
ghost use Rattle.isa.specs.Forms.{form_of};
ghost use Rattle.isa.specs.Codec.{first_bad, refusal_in, operands_of, decode_at, encoded_of, output_of};
ghost use Rattle.isa.specs.Reads.{byte_read, reg_read};
ghost use Rattle.std.specs.Result.{result_ok};
ghost use Rattle.isa.specs.Shapes.{Shape, refused_by};
ghost use Rattle.isa.specs.Answers.{decode_error, encode_error};

use super::instr::Instr;
use super::opcode::OpCode;
use words::refusal::Refusal;

#[derive(Clone, Copy, Debug, PartialEq, Eq)]
pub enum DecodeError {
    UnknownOpcode(u8),
    BadRegister(u8),
    Truncated,
}

// What was read, and the place of the next read.
#[derive(Clone, Copy)]
pub struct ReadAt {
    pub got: Result<u8, DecodeError>,
    pub at: usize,
}

#[derive(Clone, Copy, Debug, PartialEq, Eq)]
pub enum EncodeError {
    BadRegister(u8),
    NoRoom,
}

impl From<DecodeError> for Refusal {
    ghost from_gives = { λ e r. r ≡ decode_error e };

    fn from(e: DecodeError) -> Refusal {
        match e {
            DecodeError::UnknownOpcode(b) => Refusal {
                number: 15,
                argument: b as u64,
            },
            DecodeError::BadRegister(b) => Refusal {
                number: 16,
                argument: b as u64,
            },
            DecodeError::Truncated => Refusal::numbered(17),
        }
    }
}

impl From<EncodeError> for Refusal {
    ghost from_gives = { λ e r. r ≡ encode_error e };

    fn from(e: EncodeError) -> Refusal {
        match e {
            EncodeError::BadRegister(b) => Refusal {
                number: 16,
                argument: b as u64,
            },
            EncodeError::NoRoom => Refusal::numbered(48),
        }
    }
}

// The byte at a place of the code.
pub fn read_byte(code: &[u8], at: usize) -> ReadAt
    ensures { result ≡ byte_read code.now at }
{
    if code.len() <= at {
        return ReadAt {
            got: Err(DecodeError::Truncated),
            at,
        };
    }
    let b = code[at];
    ReadAt {
        got: Ok(b),
        at: at + 1,
    }
}

// The byte at a place of the code, which must be a register; a byte that is none has been read all the same.
pub fn read_reg(code: &[u8], at: usize) -> ReadAt
    ensures { result ≡ reg_read code.now at }
{
    let r = read_byte(code, at);
    match r.got {
        Ok(b) if OpCode::NUM_REGS <= b => ReadAt {
            got: Err(DecodeError::BadRegister(b)),
            at: r.at,
        },
        _ => r,
    }
}

// The first register of 16 or more.
#[tactic(auto, using(crate::proofs::FirstBad::bad_here, crate::proofs::FirstBad::bad_next))]
fn first_bad(s: &[u8]) -> Option<u8>
    ensures { result ≡ first_bad s.now }
{
    for &b in s {
        if b >= OpCode::NUM_REGS {
            return Some(b);
        }
    }
    None
}

// Whether n registers and w bytes of a number stand at the start of s. The length is tested first, so that n registers are
// walked, as many as each call says.
fn stands(s: &[u8], n: usize, w: usize) -> bool
    requires { n + w ≤ 9 }
    ensures answer { result ≡ is_none (refusal_in n w s.now) }
    ensures room { result ≡ true → n + w ≤ length s.now }
{
    if s.len() < n + w {
        return false;
    }
    first_bad(&s[..n]).is_none()
}

// Why they do not: the first bad register of those that stand, or else that bytes are missing. Told as decode's own answer, which
// `?` would put together once more for every instruction.
fn refused(s: &[u8], n: usize) -> Result<(Instr, usize), DecodeError>
    ensures { result ≡ refused_by (first_bad (take n s.now)) }
{
    match first_bad(&s[..n.min(s.len())]) {
        Some(b) => Err(DecodeError::BadRegister(b)),
        None => Err(DecodeError::Truncated),
    }
}

// What the bytes after an opcode say, by its shape, if they stand: no register, and w bytes of a number.
fn none(op: OpCode, s: &[u8], w: usize) -> Option<(Instr, usize)>
    requires { Shape op 0 w }
    ensures { result ≡ result_ok (operands_of op s.now) }
{
    if w == 0 {
        return Some((super::instr::plain(op), 1));
    }
    if !stands(s, 0, 4) {
        return None;
    }
    Some((super::instr::jump(op, words::bytes::read(s, 0, 4)), 5))
}

// One register, and w bytes of a number.
fn one(op: OpCode, s: &[u8], w: usize) -> Option<(Instr, usize)>
    requires { Shape op 1 w }
    ensures { result ≡ result_ok (operands_of op s.now) }
{
    if !stands(s, 1, w) {
        return None;
    }
    let r0 = s[0];
    match w {
        0 => Some((super::instr::with_one(op, r0), 2)),
        2 => Some((
            Instr::Ldc {
                d: r0,
                idx: (words::bytes::read(s, 1, 2) % 65536) as u16,
            },
            4,
        )),
        4 => Some((super::instr::branch(op, r0, words::bytes::read(s, 1, 4)), 6)),
        _ => Some((
            Instr::Ldi {
                d: r0,
                imm: words::bytes::read(s, 1, 8),
            },
            10,
        )),
    }
}

fn two(op: OpCode, s: &[u8]) -> Option<(Instr, usize)>
    requires { Shape op 2 0 }
    ensures { result ≡ result_ok (operands_of op s.now) }
{
    if !stands(s, 2, 0) {
        return None;
    }
    Some((super::instr::with_two(op, s[0], s[1]), 3))
}

fn three(op: OpCode, s: &[u8]) -> Option<(Instr, usize)>
    requires { Shape op 3 0 }
    ensures { result ≡ result_ok (operands_of op s.now) }
{
    if !stands(s, 3, 0) {
        return None;
    }
    Some((super::instr::with_three(op, s[0], s[1], s[2]), 4))
}

fn six(op: OpCode, s: &[u8]) -> Option<(Instr, usize)>
    requires { Shape op 6 0 }
    ensures { result ≡ result_ok (operands_of op s.now) }
{
    if !stands(s, 6, 0) {
        return None;
    }
    Some((
        super::instr::with_six(op, s[0], s[1], s[2], s[3], s[4], s[5]),
        7,
    ))
}

// The instruction at a place of the code and its length, or the first refusal met.
// Each shape's instruction is returned from its arm, and a refusal behind them all: where arms meet, or an instruction and a refusal,
// an answer is put together byte by byte.
pub fn decode(code: &[u8], place: usize) -> Result<(Instr, usize), DecodeError>
    ensures { result ≡ decode_at code.now place }
{
    if code.len() <= place {
        return Err(DecodeError::Truncated);
    }
    let b = code[place];
    let Some(op) = OpCode::from_byte(b) else {
        return Err(DecodeError::UnknownOpcode(b));
    };
    let at = place + 1;
    let s = &code[at..];
    let row = op.row();
    let n = row.1;
    let w = row.2;
    match n {
        0 => {
            if let Some(decoded) = none(op, s, w) {
                return Ok(decoded);
            }
        }
        1 => {
            if let Some(decoded) = one(op, s, w) {
                return Ok(decoded);
            }
        }
        2 => {
            if let Some(decoded) = two(op, s) {
                return Ok(decoded);
            }
        }
        3 => {
            if let Some(decoded) = three(op, s) {
                return Ok(decoded);
            }
        }
        _ => {
            if let Some(decoded) = six(op, s) {
                return Ok(decoded);
            }
        }
    }
    refused(s, n)
}

// A byte, the first n registers and the low w bytes of a number, one after the other from the start of out.
fn put(out: &mut [u8], byte: u8, r: &[u8], n: usize, num: u64, w: usize)
    requires { (1 + n + w ≤ length out.old) × (n ≤ length r.now) }
    ensures { out.new ≡ (byte ∷ take n r.now ++ be_bytes w num) ++ drop (1 + n + w) out.old }
{
    out[0] = byte;
    words::bytes::copy_in(out, 1, &r[..n]);
    words::bytes::write(out, 1 + n, w, num);
}

// The first register of 16 or more that an instruction names.
pub fn bad_register(i: Instr) -> Option<u8>
    ensures { result ≡ first_bad (form_of i).regs }
{
    let p = i.parts_of();
    let op = p.0;
    let r = p.1;
    let n = op.registers();
    first_bad(&r[..n])
}

// The bytes of an instruction into the output, and how many; a refusal leaves the output as it is.
#[tactic(auto, using(crate::proofs::NoRoom::no_room_answer, crate::proofs::NoRoom::no_room_output))]
pub fn encode(i: Instr, out: &mut [u8]) -> Result<usize, EncodeError>
    ensures answer { result ≡ encoded_of i out.old }
    ensures output { out.new ≡ output_of i out.old }
{
    if let Some(b) = bad_register(i) {
        return Err(EncodeError::BadRegister(b));
    }
    let p = i.parts_of();
    let op = p.0;
    let r = p.1;
    let row = op.row();
    let n = row.1;
    let w = row.2;
    let size = 1 + n + w;
    if out.len() < size {
        return Err(EncodeError::NoRoom);
    }
    put(out, row.0, &r, n, p.2, w);
    Ok(size)
}
