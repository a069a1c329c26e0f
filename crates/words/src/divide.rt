// Quotient and remainder of two numbers of two words: an estimate for each size of divisor.
ghost use Rattle.std.specs.Prelude.{◌≡◌, ◌+◌, ◌*◌, ◌/◌, ◌^◌, ◌≤◌, ◌<◌};
ghost use Rattle.words.specs.Wide.{wide, Divides};

use super::descend::{Divided, descend};
use super::product::{HALF, Wide};

// One digit of 32 bits: rest and the next half word, by v. The estimate is by v's upper half.
fn digit(rest: u64, next: u64, v: u64) -> Divided<u64>
    requires { (2 ^ 32 ≤ v) × (rest < v) × (next < 2 ^ 32) }
    ensures { (Divides (rest * 2 ^ 32 + next) v result.q result.r) × (result.q < 2 ^ 32) }
{
    let n = Wide {
        hi: rest / HALF,
        lo: rest % HALF * HALF + next,
    };
    let d = Wide { hi: 0, lo: v };
    let x = descend(n, d, rest / (v / HALF));
    Divided {
        q: x.q.lo,
        r: x.r.lo,
    }
}

// Two words by one of more than a half word, with a quotient of one word. The digits' estimates are close where v is in the
// upper half of a word's range.
fn by_large(hi: u64, lo: u64, v: u64) -> u64
    requires { (2 ^ 32 ≤ v) × (hi < v) }
    ensures { result ≡ (hi * 2 ^ 64 + lo) / v }
{
    let a = digit(hi, lo / HALF, v);
    let b = digit(a.r, lo % HALF, v);
    a.q * HALF + b.q
}

// x * 2^s.
fn shifted(x: u64, s: u64) -> Wide
    requires { s < 64 }
    ensures { wide result ≡ x * 2 ^ s }
{
    Wide {
        hi: (x >> 1) >> (63 - s),
        lo: x << s,
    }
}

// Two words by one, with a quotient of one word. A power of two, which leaves the quotient as it is, brings v to the upper half
// of a word's range.
pub(crate) fn two_by_one(hi: u64, lo: u64, v: u64) -> u64
    requires { hi < v }
    ensures { result ≡ (hi * 2 ^ 64 + lo) / v }
{
    let s = u64::leading_zeros(v) as u64;
    let p = shifted(lo, s);
    by_large((hi << s) + p.hi, p.lo, v << s)
}

// A divisor of one word: the quotient's upper word, then its lower.
fn by_word(n: Wide, d: u64) -> Divided<Wide>
    requires { 0 < d }
    ensures { Divides (wide n) d (wide result.q) (wide result.r) }
{
    let hi = n.hi / d;
    let left = n.hi % d;
    let rest = Wide { hi: left, lo: n.lo };
    let e = two_by_one(left, n.lo, d);
    let x = descend(rest, Wide { hi: 0, lo: d }, e);
    let q = Wide { hi, lo: x.q.lo };
    let r = x.r;
    Divided { q, r }
}

// The upper two of the three words of n * 2^s.
fn upper(n: Wide, s: u64) -> Wide
    requires { s < 64 }
    ensures { wide result ≡ wide n * 2 ^ s / 2 ^ 64 }
{
    let p = shifted(n.lo, s);
    let q = shifted(n.hi, s);
    Wide {
        hi: q.hi,
        lo: q.lo + p.hi,
    }
}

// A divisor of two words. A power of two brings it to the top of three words, and the upper words of both give the estimate.
fn by_wide(n: Wide, d: Wide) -> Divided<Wide>
    requires { 0 < d.hi }
    ensures { Divides (wide n) (wide d) (wide result.q) (wide result.r) }
{
    let s = u64::leading_zeros(d.hi) as u64;
    let v = upper(d, s);
    let u = upper(n, s);
    descend(n, d, by_large(u.hi, u.lo, v.lo))
}

// Quotient and remainder, for every divisor but 0.
pub fn divide(n: Wide, d: Wide) -> Divided<Wide>
    requires { 0 < wide d }
    ensures { Divides (wide n) (wide d) (wide result.q) (wide result.r) }
{
    if d.hi == 0 {
        return by_word(n, d.lo);
    }
    by_wide(n, d)
}
