// Numbers in decimal, each after its name.
ghost use Rattle.std.specs.Prelude.{◌≡◌, ◌+◌, ◌≤◌, ◌<◌, length};
ghost use Rattle.std.proofs.Math.Seq.{paste};
ghost use Rattle.text.specs.Decimal.{last_digits, digit_count, decimal_of, field_of};
ghost use Rattle.words.specs.Laid.{Laid};

// How many decimal digits a number takes.
#[tactic(auto, using(crate::specs::DecimalLaws::count_power))]
fn digits(n: u64) -> usize
    ensures { result ≡ digit_count 20 n }
{
    n.max(1).ilog10() as usize + 1
}

// The last w digits of a number, at a place: the last first.
// No plainer as one function with `words::bytes::write`: readers know `last_digits` and `be_bytes` as two.
#[tactic(auto, using(crate::specs::DecimalLaws::put_turn))]
fn put_digits(out: &mut [u8], at: usize, w: usize, n: u64)
    requires { at + w ≤ length out.old }
    ensures { out.new ≡ paste out.old at (last_digits w n) w }
{
    let mut x = n;
    for i in (0..w).rev() {
        out[at + i] = b'0' + (x % 10) as u8;
        x /= 10;
    }
}

// A number in decimal at a place, and where it ends.
#[tactic(auto, using(crate::specs::DecimalLaws::count_most, crate::specs::DecimalLaws::length_digits), unfolding(crate::specs::Decimal::decimal_of))]
fn decimal(out: &mut [u8], at: usize, n: u64) -> usize
    requires { at + 20 ≤ length out.old }
    ensures { Laid out.old at (decimal_of n) out.new result }
{
    let w = digits(n);
    put_digits(out, at, w, n);
    at + w
}

// A name and a number in decimal at a place, and where they end.
pub fn field(out: &mut [u8], at: usize, name: &[u8], n: u64) -> usize
    requires { at + length name.now + 20 ≤ length out.old }
    ensures { Laid out.old at (field_of name.now n) out.new result }
{
    let next = words::laid::put_bytes(out, at, name);
    decimal(out, next, n)
}
