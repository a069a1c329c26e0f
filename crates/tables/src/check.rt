// Whether bytes are a table: whole rows, keys strictly rising.
ghost use Rattle.std.specs.Prelude.{◌≡◌, ◌*◌, ◌≤◌, length, Some, None, MatchOption};
ghost use Rattle.tables.specs.Rows.{rows};
ghost use Rattle.tables.specs.Checked.{risingb, checked_of, checked_if};

use crate::rows::Rows;

// Whether the keys of the first n rows rise strictly.
pub fn rising(t: &[u8], n: usize, w: usize) -> bool
    requires { (32 ≤ w) × (n * w ≤ length t.now) }
    ensures { result ≡ risingb 0 (rows w n t.now) }
{
    for i in 1..n {
        let at = i * w;
        let from = at - w;
        let o = crate::order::compare(&t[from..from + 32], &t[at..at + 32]);
        if o.is_ge() {
            return false;
        }
    }
    true
}

// How many rows of w bytes a table has, or that it is none. The count alone, for callers that keep it apart from the bytes.
pub fn check(t: &[u8], w: usize) -> Option<usize>
    requires { 32 ≤ w }
    ensures { result ≡ checked_of w t.now }
{
    let n = t.len() / w;
    if t.len() % w == 0 && rising(t, n, w) {
        Some(n)
    } else {
        None
    }
}

// The same of a table that may be absent: then it has no rows, and its bytes are not looked at.
pub fn check_if(present: bool, t: &[u8], w: usize) -> Option<usize>
    requires { 32 ≤ w }
    ensures { result ≡ checked_if present w t.now }
{
    if present { check(t, w) } else { Some(0) }
}

// The same two, and the table itself.
impl<'a, const W: usize> Rows<'a, W> {
    pub fn check(bytes: &'a [u8]) -> Option<Rows<'a, W>>
        requires { 32 ≤ W }
        ensures { MatchOption result (checked_of W bytes.now ≡ None)
            (λ t. (t.bytes.now ≡ bytes.now) × (checked_of W bytes.now ≡ Some t.count)) }
    {
        let count = check(bytes, W)?;
        Some(Rows { bytes, count })
    }

    pub fn check_if(present: bool, bytes: &'a [u8]) -> Option<Rows<'a, W>>
        requires { 32 ≤ W }
        ensures { MatchOption result (checked_if present W bytes.now ≡ None)
            (λ t. (t.bytes.now ≡ bytes.now) × (checked_if present W bytes.now ≡ Some t.count)) }
    {
        let count = check_if(present, bytes, W)?;
        Some(Rows { bytes, count })
    }
}
