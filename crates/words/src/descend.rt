// Quotient and remainder from an estimate of the quotient that is not below it.
ghost use Rattle.std.specs.Prelude.{◌≡◌, ◌+◌, ◌*◌, ◌/◌, ◌≤◌, ◌<◌, leb};
ghost use Rattle.words.specs.Wide.{wide, Divides};

use super::product::{Wide, product};

// Quotient and remainder, both numbers of one word or of two.
#[derive(Clone, Copy)]
pub struct Divided<T> {
    pub q: T,
    pub r: T,
}

// Whether a is at most b. By a derived order the proof of what `wide` says did not close.
fn at_most(a: Wide, b: Wide) -> bool
    ensures { result ≡ leb (wide a) (wide b) }
{
    if a.hi == b.hi {
        a.lo <= b.lo
    } else {
        a.hi < b.hi
    }
}

// a - b.
fn minus(a: Wide, b: Wide) -> Wide
    requires { wide b ≤ wide a }
    ensures { wide a ≡ wide b + wide result }
{
    let hi = a.hi - b.hi;
    if b.lo <= a.lo {
        let lo = a.lo - b.lo;
        return Wide { hi, lo };
    }
    let hi = hi - 1;
    let lo = a.lo + (u64::MAX - b.lo) + 1;
    Wide { hi, lo }
}

// n by d, from an estimate of the quotient, which comes down while its product with d is above n.
// How often it comes down is no part of the contract.
pub(crate) fn descend(n: Wide, d: Wide, from: u64) -> Divided<Wide>
    requires { (0 < wide d) × (wide n / wide d ≤ from) × (from * d.hi ≤ n.hi) }
    ensures { Divides (wide n) (wide d) (wide result.q) (wide result.r) }
{
    let mut e = from;
    // No index: the estimate comes down until its product fits.
    loop {
        let hi = n.hi - e * d.hi;
        let rest = Wide { hi, lo: n.lo };
        let p = product(e, d.lo);
        if at_most(p, rest) {
            let r = minus(rest, p);
            let q = Wide { hi: 0, lo: e };
            return Divided { q, r };
        }
        e -= 1;
    }
}
