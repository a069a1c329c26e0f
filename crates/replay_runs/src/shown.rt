// What a call leaves, as text.
use crate::lent::Buffers;
use interp::answer::Answer;
use std::io;
use std::io::Write;

// The numbers are digits to this base, modulo this prime: 0 for zeros alone.
const BASE: u64 = 1000003;

const PRIME: u64 = 4294967291;

fn checksum<W: Write, T: Copy>(out: &mut W, t: &[T]) -> io::Result<()>
where
    u64: From<T>,
{
    let mut sum: u64 = 0;
    for &x in t {
        sum = (sum * BASE + u64::from(x) % PRIME) % PRIME;
    }
    print::number(out, sum)
}

fn numbers<W: Write>(out: &mut W, t: &[u64]) -> io::Result<()> {
    for &n in t {
        print::number(out, n)?;
    }
    Ok(())
}

fn count<W: Write>(out: &mut W, name: &[u8], n: u64) -> io::Result<()> {
    print::text(out, name)?;
    print::number(out, n)
}

pub fn answer<W: Write>(out: &mut W, a: Answer) -> io::Result<()> {
    let end = a.end;
    if end.number == 0 {
        print::text(out, b"halted")?;
    } else {
        count(out, b"no", end.number)?;
        print::number(out, end.argument)?;
    }
    count(out, b" fetches", a.fetches)?;
    count(out, b" used", a.used)?;
    count(out, b" fetched", a.fetched)?;
    count(out, b" changes", a.changes)?;
    count(out, b" log", a.log)?;
    print::text(out, b" regs")?;
    numbers(out, &a.regs.r)
}

pub fn buffers<W: Write>(out: &mut W, b: &Buffers) -> io::Result<()> {
    print::text(out, b" buffers")?;
    checksum(out, b.memory)?;
    checksum(out, b.stack)?;
    checksum(out, b.starts)?;
    checksum(out, b.changes)?;
    checksum(out, b.fetched)?;
    checksum(out, b.reads)?;
    checksum(out, b.writes)?;
    checksum(out, b.fresh)?;
    checksum(out, b.log)?;
    print::text(out, b"\n")
}
