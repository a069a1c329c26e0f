// Drives sorted tables and an effect log through the records of standard input; a line for each.
// A record is an operation (1 byte), a key (32) and a value (8); a mint's data are both.
#![tactic(auto)]

mod operation;

ghost use Rattle.std.specs.Prelude.{◌≡◌, true, ◌≤◌};
ghost use Rattle.tables.specs.Table.{Table};

use operation::Operation;
use print::parts::first;
use std::io;
use std::io::{BufWriter, Write};
use tables::rows::Rows;

// The selector MINT, then four zero bytes.
const MINT: u64 = 0x4D49_4E54_0000_0000;

// The kinds of effects.
const TRANSFER: u8 = 0;

const EVENT: u8 = 1;

// The map and the set with how many rows each has, and the log with where it ends.
#[derive(Drop)]
struct Stores {
    map: [u8; 2000],
    pairs: usize,
    set: [u8; 1600],
    members: usize,
    log: [u8; 4096],
    end: usize,
}

// Whether n sorted rows of w bytes stand in t.
fn sorted(t: &[u8], n: usize, w: usize) -> bool
    requires { 32 ≤ w }
    ensures { result ≡ true → Table w n t.now }
{
    n <= t.len() / w && tables::check::check(&t[..n * w], w) == Some(n)
}

// The new count that a step leaves, or the old one where it was refused.
fn told<W: Write>(out: &mut W, name: &[u8], new: Option<usize>, old: usize) -> io::Result<usize> {
    let Some(n) = new else {
        print::text(out, b"no 48")?;
        return Ok(old);
    };
    print::text(out, name)?;
    print::number(out, n as u64)?;
    Ok(n)
}

// `put` and `add`, `get` and `has` call two functions of tables each: no plainer as one that takes both.
fn put<W: Write>(out: &mut W, t: &mut [u8], n: usize, key: &[u8; 32], v: u64) -> io::Result<usize> {
    if !sorted(t, n, 40) {
        return Ok(n);
    }
    told(out, b"rows", tables::store::put(t, n, key, v), n)
}

fn add<W: Write>(out: &mut W, t: &mut [u8], n: usize, key: &[u8; 32]) -> io::Result<usize> {
    if !sorted(t, n, 32) {
        return Ok(n);
    }
    told(out, b"rows", tables::store::add(t, n, key), n)
}

fn get<W: Write>(out: &mut W, t: &[u8], n: usize, key: &[u8; 32]) -> io::Result<()> {
    if !sorted(t, n, 40) {
        return Ok(());
    }
    let map: Rows<40> = Rows { bytes: t, count: n };
    let Some(v) = map.get(key) else {
        return print::text(out, b"nothing");
    };
    print::text(out, b"value")?;
    print::number(out, v)
}

fn has<W: Write>(out: &mut W, t: &[u8], n: usize, key: &[u8; 32]) -> io::Result<()> {
    if !sorted(t, n, 32) {
        return Ok(());
    }
    let set: Rows<32> = Rows { bytes: t, count: n };
    if set.has(key) {
        print::text(out, b"has")
    } else {
        print::text(out, b"has not")
    }
}

// The log's end after a record was appended, or the refusal.
fn append<W: Write>(
    out: &mut W,
    log: &mut [u8],
    end: usize,
    kind: u8,
    word: u64,
    data: &[u8],
) -> io::Result<usize> {
    if log.len() < end || data.len() > 40 {
        return Ok(end);
    }
    told(
        out,
        b"end",
        effects::log::append(log, end, kind, word, data),
        end,
    )
}

fn known<W: Write>(out: &mut W, log: &[u8], kind: u8, target: &[u8]) -> io::Result<()> {
    if effects::targets::known(log, kind, target) {
        print::text(out, b"known")
    } else {
        print::text(out, b"new")
    }
}

// How many records, how many events, and whether there is a durable target.
fn counts<W: Write>(out: &mut W, log: &[u8]) -> io::Result<()> {
    print::text(out, b"log")?;
    print::number(out, effects::counts::records(log) as u64)?;
    print::number(out, effects::counts::events(log) as u64)?;
    if effects::targets::any_target(log) {
        print::text(out, b" target")?;
    }
    Ok(())
}

// The data of an effect or the bytes of a target: as many of a key's first bytes as the value modulo 33.
fn some_of(key: &[u8; 32], v: u64) -> &[u8] {
    &key[..(v % 33) as usize]
}

fn one<W: Write>(out: &mut W, record: &[u8; 41], s: &mut Stores) -> io::Result<()> {
    let body = &record[1..];
    let key = record[1..33].as_array().unwrap();
    let v = words::bytes::read(record, 33, 8);
    match Operation::from(record[0]) {
        Operation::Put => s.pairs = put(out, &mut s.map, s.pairs, key, v)?,
        Operation::Get => get(out, &s.map, s.pairs, key)?,
        Operation::Add => s.members = add(out, &mut s.set, s.members, key)?,
        Operation::Has => has(out, &s.set, s.members, key)?,
        Operation::Transfer => {
            s.end = append(out, &mut s.log, s.end, TRANSFER, v, some_of(key, v))?
        }
        Operation::Event => s.end = append(out, &mut s.log, s.end, EVENT, v, some_of(key, v))?,
        Operation::KnownTransfer => known(out, first(&s.log, s.end), TRANSFER, some_of(key, v))?,
        Operation::Mint => s.end = append(out, &mut s.log, s.end, EVENT, MINT, body)?,
        Operation::KnownMint => known(out, first(&s.log, s.end), EVENT, key)?,
        Operation::Counts => counts(out, first(&s.log, s.end))?,
    }
    Ok(())
}

fn lines<W: Write>(out: &mut W, input: &[u8]) -> io::Result<()> {
    let mut stores = Stores {
        map: [0; 2000],
        pairs: 0,
        set: [0; 1600],
        members: 0,
        log: [0; 4096],
        end: 0,
    };
    for record in input.as_chunks::<41>().0 {
        one(out, record, &mut stores)?;
        print::text(out, b"\n")?;
    }
    Ok(())
}

fn main(rt: HostRuntime) -> io::Result<()> {
    let mut buffer = [0u8; 262144];
    let got = print::input::fill(&mut rt.reader(), &mut buffer)?;
    let mut out = BufWriter::new(rt.alloc(), io::writer(&rt))?;
    lines(&mut out, &buffer[..got])?;
    out.flush()
}
