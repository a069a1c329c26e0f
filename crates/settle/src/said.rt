// Lines on standard output, and complaints on standard error.
use std::alloc::Global;
use std::io;
use std::io::Write;

// A complaint is one line.
pub fn complain<E: Write>(err: &mut E, what: &[u8], why: &[u8]) -> io::Result<()> {
    err.write_all(b"settle: ")?;
    err.write_all(what)?;
    err.write_all(b": ")?;
    err.write_all(why)?;
    err.write_all(b"\n")
}

// The same for what the system refused, with its own word for why, which stands before its number.
pub fn failed<E: Write>(
    alloc: Global,
    err: &mut E,
    what: &[u8],
    refusal: &io::Error,
) -> io::Result<()> {
    let text = refusal.to_string(alloc)?;
    let why = text
        .split_once(" (os error ")
        .map_or(text.as_str(), |parts| parts.0);
    complain(err, what, why.as_bytes())
}

// The first n bytes, as many as a text laid into a buffer has, and the line's end.
pub fn line<W: Write>(out: &mut W, s: &[u8], n: usize) -> io::Result<()> {
    print::front(out, s, n)?;
    print::text(out, b"\n")
}

// A name and a number.
pub fn count<W: Write>(out: &mut W, name: &[u8], n: u64) -> io::Result<()> {
    print::text(out, name)?;
    print::number(out, n)?;
    print::text(out, b"\n")
}
