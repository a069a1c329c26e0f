// What is printed of plans, of what was done, and of the tables.
use crate::lent::Tables;
use keys::authorise::KeyPlan;
use keys::counts::Counts;
use keys::look::Look;
use keys::store::StorePlan;
use std::io;
use std::io::Write;

const PRIME: u64 = 4294967291;

pub fn loaded<W: Write>(out: &mut W, seen: Look, c: Counts) -> io::Result<()> {
    print::text(out, b"value")?;
    print::number(out, seen.value)?;
    print::text(out, b" rows")?;
    print::number(out, c.fetched as u64)
}

pub fn store_plan<W: Write>(out: &mut W, plan: StorePlan) -> io::Result<()> {
    if plan.fresh {
        print::text(out, b"fresh ")?;
    }
    print::text(out, b"price")?;
    print::number(out, plan.price)
}

pub fn stored<W: Write>(out: &mut W, c: Counts) -> io::Result<()> {
    print::text(out, b" rows")?;
    print::number(out, c.changes as u64)?;
    print::number(out, c.fetched as u64)?;
    print::number(out, c.paid as u64)
}

pub fn key_plan<W: Write>(out: &mut W, plan: KeyPlan) -> io::Result<()> {
    print::text(out, b"price")?;
    print::number(out, plan.price)?;
    print::text(out, b" bytes")?;
    print::number(out, plan.bytes)
}

pub fn authorised<W: Write>(out: &mut W, c: Counts) -> io::Result<()> {
    print::text(out, b" rows")?;
    print::number(out, c.reads as u64)?;
    print::number(out, c.writes as u64)
}

// The bytes as digits of a number, modulo a prime: every byte and its place count.
fn sum(t: &[u8]) -> u64 {
    let mut s: u64 = 0;
    for b in t {
        s = (s * 257 + *b as u64) % PRIME;
    }
    s
}

fn table<W: Write>(out: &mut W, n: usize, t: &[u8]) -> io::Result<()> {
    print::number(out, n as u64)?;
    print::number(out, sum(t))
}

// Rows and the sum of all bytes of each table.
pub fn tables<W: Write>(out: &mut W, t: &Tables) -> io::Result<()> {
    print::text(out, b"tables")?;
    table(out, t.counts.changes, &t.changes)?;
    table(out, t.counts.fetched, &t.fetched)?;
    table(out, t.counts.reads, &t.readable)?;
    table(out, t.counts.writes, &t.writable)?;
    table(out, t.counts.paid, &t.paid)
}
