// Declared slots, read from the container's bytes where they stand: eight bytes each.
ghost use Rattle.std.specs.Prelude.{◌≡◌, ◌↔◌, true, All, IsTrue};
ghost use Rattle.words.specs.Bytes.{num, words_in};
ghost use Rattle.words.specs.Lists.{member};

use std::cmp::Ordering;

// Whether halving the slots comes to a number: where they rise, it does if the number is among them.
// A loop: `binary_search` goes over the elements of a slice, and eight bytes are none.
fn halving(list: &[u8], x: u64) -> bool
    ensures { result ≡ true → member x (words_in list.now) ≡ true }
{
    let mut lo = 0;
    let mut hi = list.len() / 8;
    while lo < hi {
        let mid = lo + (hi - lo) / 2;
        let v = words::bytes::read(list, mid * 8, 8);
        match v.cmp(&x) {
            Ordering::Less => lo = mid + 1,
            Ordering::Equal => return true,
            Ordering::Greater => hi = mid,
        }
    }
    false
}

// Whether a number stands among the slots: found by halving where they rise, else by a walk over them all.
pub fn listed(list: &[u8], x: u64) -> bool
    ensures { result ≡ member x (words_in list.now) }
{
    if halving(list, x) {
        return true;
    }
    for i in 0..list.len() / 8 {
        if words::bytes::read(list, i * 8, 8) == x {
            return true;
        }
    }
    false
}

// Whether every byte is zero. As in replies: one line over std's `all`, each under its crate's definition.
fn all_zero(s: &[u8]) -> bool
    ensures { IsTrue result ↔ All (λ b. b ≡ 0) s.now }
{
    s.iter().all(|&b| b == 0)
}

// Whether a key is a slot's, and the slot is declared: a slot's key is 24 zero bytes, then the slot.
pub(crate) fn declared(list: &[u8], key: &[u8; 32]) -> bool
    ensures { result ≡ member (num key.now) (words_in list.now) }
{
    all_zero(&key[..24]) && listed(list, words::bytes::read(key, 24, 8))
}
