// Bytes and numbers laid down at a place, and where they end.
ghost use Rattle.std.specs.Prelude.{◌+◌, ◌≤◌, length};
ghost use Rattle.words.specs.Bytes.{be_bytes};
ghost use Rattle.words.specs.Laid.{Laid};

use super::bytes::{copy_in, write};

// The low w bytes of a number.
pub fn put_number(out: &mut [u8], at: usize, w: usize, v: u64) -> usize
    requires { at + w ≤ length out.old }
    ensures { Laid out.old at (be_bytes w v) out.new result }
{
    write(out, at, w, v);
    at + w
}

// Bytes as they are.
pub fn put_bytes(out: &mut [u8], at: usize, src: &[u8]) -> usize
    requires { at + length src.now ≤ length out.old }
    ensures { Laid out.old at src.now out.new result }
{
    copy_in(out, at, src);
    at + src.len()
}
