// What the programs share: text, numbers in decimal, bytes in hex or in decimal printed, and parts of what was read.
#![tactic(auto)]

pub mod input;
pub mod parts;

ghost use Rattle.std.specs.Prelude.{[], ◌∷◌, length, take, nat_le, if◌then◌else◌, OnOk};
ghost use Rattle.std.specs.Fmt.{decimal};
ghost use Rattle.std.specs.Io.KnownBytes.{Appends};

use std::io;
use std::io::Write;

pub fn text<W: Write>(out: &mut W, s: &[u8]) -> io::Result<()>
    ensures { OnOk result (Appends (W.contents out.old) (W.contents out.new) s.now) }
{
    out.write_all(s)
}

// The first n bytes of a text that has them.
pub fn front<W: Write>(out: &mut W, s: &[u8], n: usize) -> io::Result<()>
    ensures { OnOk result (Appends (W.contents out.old) (W.contents out.new)
        (if nat_le n (length s.now) then take n s.now else [])) }
{
    match s.get(..n) {
        Some(front) => text(out, front),
        None => Ok(()),
    }
}

// A space and a number.
pub fn number<W: Write>(out: &mut W, n: u64) -> io::Result<()>
    ensures { OnOk result (Appends (W.contents out.old) (W.contents out.new) (32 ∷ decimal n)) }
{
    write!(out, " {n}")
}

// Two digits of hex, or a space and a number.
fn byte<W: Write>(out: &mut W, b: u8, hex: bool) -> io::Result<()> {
    if hex {
        write!(out, "{b:02x}")
    } else {
        number(out, u64::from(b))
    }
}

// The first n bytes, as far as they stand.
pub fn bytes<W: Write>(out: &mut W, s: &[u8], n: usize, hex: bool) -> io::Result<()> {
    for &b in parts::first(s, n) {
        byte(out, b, hex)?;
    }
    Ok(())
}
