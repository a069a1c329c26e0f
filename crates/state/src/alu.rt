// The values of operations on words.
ghost use Rattle.std.specs.Prelude.{◌≡◌, ◌+◌, ◌*◌, ◌<◌};
ghost use Rattle.words.specs.Wide.{wide};
ghost use Rattle.state.specs.Alu.{word, difference, over, part_of, alu_of};

use super::fault::Fault;
use words::product::Wide;

// The operations on two registers.
#[derive(Clone, Copy)]
pub enum Op {
    Add,
    Sub,
    Mul,
    Div,
    Rem,
    AddW,
    SubW,
    MulW,
    MulHi,
    And,
    Or,
    Xor,
    Shl,
    Shr,
    Eq,
    LtU,
    GtU,
}

// What is wanted of a division.
#[derive(Clone, Copy)]
pub enum Wanted {
    Quotient,
    Rest,
}

fn add(x: u64, y: u64) -> Result<u64, Fault>
    ensures { result ≡ word (x + y) }
{
    if x <= u64::MAX - y {
        return Ok(x + y);
    }
    Err(Fault::Overflow)
}

fn sub(x: u64, y: u64) -> Result<u64, Fault>
    ensures { result ≡ difference x y }
{
    if y <= x {
        return Ok(x - y);
    }
    Err(Fault::Overflow)
}

#[tactic(auto, using(crate::specs::AluLaws::product_word, crate::specs::AluLaws::product_past))]
fn mul(x: u64, y: u64) -> Result<u64, Fault>
    ensures { result ≡ word (x * y) }
{
    let p = words::product::product(x, y);
    if p.hi == 0 {
        return Ok(p.lo);
    }
    Err(Fault::Overflow)
}

fn divide(want: Wanted, x: u64, y: u64) -> Result<u64, Fault>
    ensures { result ≡ over y (part_of want x y) }
{
    if y == 0 {
        return Err(Fault::DivByZero);
    }
    match want {
        Wanted::Quotient => Ok(x / y),
        Wanted::Rest => Ok(x % y),
    }
}

// The value of an operation on two words.
#[tactic(auto, unfolding(crate::specs::Alu::alu_of))]
pub fn alu(op: Op, x: u64, y: u64) -> Result<u64, Fault>
    ensures { result ≡ alu_of op x y }
{
    match op {
        Op::Add => add(x, y),
        Op::Sub => sub(x, y),
        Op::Mul => mul(x, y),
        Op::Div => divide(Wanted::Quotient, x, y),
        Op::Rem => divide(Wanted::Rest, x, y),
        Op::AddW => Ok(x.wrapping_add(y)),
        Op::SubW => Ok(x.wrapping_sub(y)),
        Op::MulW => Ok(words::product::wrapping_mul(x, y)),
        Op::MulHi => Ok(words::product::high_product(x, y)),
        Op::And => Ok(x & y),
        Op::Or => Ok(x | y),
        Op::Xor => Ok(x ^ y),
        Op::Shl => Ok(x << (y % 64)),
        Op::Shr => Ok(x >> (y % 64)),
        Op::Eq => Ok(u64::from(x == y)),
        Op::LtU => Ok(u64::from(x < y)),
        Op::GtU => Ok(u64::from(y < x)),
    }
}

// Quotient or remainder of two words by two.
pub(crate) fn divide_wide(want: Wanted, n: Wide, d: Wide) -> Wide
    requires { 0 < wide d }
    ensures { wide result ≡ part_of want (wide n) (wide d) }
{
    let x = words::divide::divide(n, d);
    match want {
        Wanted::Quotient => x.q,
        Wanted::Rest => x.r,
    }
}
