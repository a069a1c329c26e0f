// What a call is lent: parts of larger buffers.
ghost use Rattle.std.specs.Prelude.{◌≡◌, length};

pub const FILL: u8 = 165;

pub const FILL_WORD: u64 = 0xA5A5_A5A5_A5A5_A5A5;

// The buffers that a call writes.
#[derive(Drop)]
pub struct Buffers<'a> {
    pub memory: &'a mut [u8],
    pub stack: &'a mut [u64],
    pub starts: &'a mut [u8],
    pub changes: &'a mut [u8],
    pub fetched: &'a mut [u8],
    pub reads: &'a mut [u8],
    pub writes: &'a mut [u8],
    pub fresh: &'a mut [u8],
    pub log: &'a mut [u8],
}

// The first n, as far as they stand, each filled, so that what a call leaves untouched shows.
pub fn front<T: Copy>(t: &mut [T], n: usize, filler: T) -> &mut [T]
    requires { T.is_infallible filler }
{
    let end = n.min(t.len());
    let lent = &mut t[..end];
    lent.fill(filler);
    lent
}

// The part so many times over, as far as there is room; where it ends.
pub fn repeat(t: &mut [u8], s: &[u8], times: usize) -> usize {
    let mut at = 0;
    for _ in 0..times {
        // Nothing, however many times over, is nothing.
        if s.is_empty() || t.len() - at < s.len() {
            break;
        }
        t[at..at + s.len()].copy_from_slice(s);
        at += s.len();
    }
    at
}

// A long array is only named by its length: the prover would count its bytes one by one.
pub fn zeroes<const N: usize>() -> [u8; N]
    ensures { N ≡ length result }
{
    [0; N]
}
