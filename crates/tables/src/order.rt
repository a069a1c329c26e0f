// How two byte strings stand to each other.
ghost use Rattle.std.specs.Prelude.{◌≡◌, ◌*◌, ◌/◌, length};
ghost use Rattle.words.specs.Bytes.{num};
ghost use Rattle.std.specs.Ordering.{nat_cmp};

use std::cmp::Ordering;

// How two byte strings of one length, a number of whole words, stand to each other, as numbers.
// Slices, not arrays of one length: a row's key is compared where it stands.
// Word by word: byte by byte, as the slices' own `cmp`, is slower.
pub fn compare(a: &[u8], b: &[u8]) -> Ordering
    requires { (length a.now ≡ length b.now) × (length a.now / 8 * 8 ≡ length a.now) }
    ensures { result ≡ nat_cmp (num a.now) (num b.now) }
{
    for i in 0..a.len() / 8 {
        let x = words::bytes::read(a, i * 8, 8);
        let y = words::bytes::read(b, i * 8, 8);
        match x.cmp(&y) {
            Ordering::Equal => {}
            order => return order,
        }
    }
    Ordering::Equal
}
