// Opens and runs each call of standard input; a line for each, with the answer and a checksum of every lent buffer at its end.
// oracle/README.md has a record's layout.
#![tactic(auto)]

mod cut;
mod lent;
mod shown;

use cut::{HEAD, Parts, number};
use lent::{Buffers, FILL, FILL_WORD, front, zeroes};
use machine::host::Host;
use opening::open::Call;
use print::parts::first;
use std::io;
use std::io::{BufWriter, Read, Write};

// More records than there are, so that the program ends.
const MOST: u64 = 1000000;

// The Rust's genesis selector and the totals of the oracle's stand-in.
const HOST: Host = Host {
    genesis: 0xD4A3_FCE6,
    ml_signed: 5261,
    slh_signed: 7888,
};

// The call that a record's head asks for.
fn call_of(head: &[u8; HEAD]) -> Call {
    let limit = words::bytes::read(head, 5, 8);
    let has_loader = head[13] == 1;
    if head[0] == 1 {
        return Call::for_genesis(limit, HOST, has_loader);
    }
    let selector = (number(head, 1) % 4294967296) as u32;
    Call::for_entry(selector, limit, HOST, has_loader)
}

fn line<W: Write>(
    out: &mut W,
    call: Call,
    parts: Parts,
    replies: &[u8],
    lent: &mut Buffers,
) -> io::Result<()> {
    let answer = interp::call::run(
        call,
        parts.container,
        parts.store,
        parts.loader,
        replies,
        parts.preload,
        lent.memory,
        lent.stack,
        lent.starts,
        lent.changes,
        lent.fetched,
        lent.reads,
        lent.writes,
        lent.fresh,
        lent.log,
    );
    shown::answer(out, answer)?;
    shown::buffers(out, lent)
}

// From each buffer as much as the head says.
fn lend<W: Write>(
    out: &mut W,
    head: &[u8; HEAD],
    parts: Parts,
    replies: &[u8],
    all: &mut Buffers,
) -> io::Result<()> {
    let mut lent = Buffers {
        memory: front(all.memory, number(head, 14), FILL),
        stack: front(all.stack, number(head, 18), FILL_WORD),
        starts: front(all.starts, number(head, 22), FILL),
        changes: front(all.changes, number(head, 26), FILL),
        fetched: front(all.fetched, number(head, 30), FILL),
        reads: front(all.reads, number(head, 34), FILL),
        writes: front(all.writes, number(head, 38), FILL),
        fresh: front(all.fresh, number(head, 42), FILL),
        log: front(all.log, number(head, 46), FILL),
    };
    line(out, call_of(head), parts, replies, &mut lent)
}

// A record's replies stand so many times over, which the input leaves out.
fn record<W: Write>(
    out: &mut W,
    r: &[u8],
    replies: &mut [u8],
    all: &mut Buffers,
) -> io::Result<()> {
    let Some((head, behind)) = r.split_first_chunk() else {
        return Ok(());
    };
    let parts = cut::split(head, behind);
    let n = lent::repeat(replies, parts.replies, number(head, 70));
    lend(out, head, parts, first(replies, n), all)
}

fn lines<R: Read, W: Write>(
    from: &mut R,
    out: &mut W,
    replies: &mut [u8],
    all: &mut Buffers,
) -> io::Result<()> {
    let mut buffer = [0u8; 131072];
    for _ in 0..MOST {
        let n = cut::read_record(from, &mut buffer)?;
        if n == 0 {
            break;
        }
        record(out, first(&buffer, n), replies, all)?;
    }
    Ok(())
}

fn main(rt: HostRuntime) -> io::Result<()> {
    let mut all = Buffers {
        memory: &mut [0; 65537],
        stack: &mut [0; 1025],
        starts: &mut [0; 8193],
        changes: &mut [0; 1024],
        fetched: &mut [0; 1024],
        reads: &mut zeroes::<524288>(),
        writes: &mut zeroes::<524288>(),
        fresh: &mut [0; 1024],
        log: &mut zeroes::<1048576>(),
    };
    let mut replies = zeroes::<786480>();
    let mut out = BufWriter::new(rt.alloc(), io::writer(&rt))?;
    lines(&mut rt.reader(), &mut out, &mut replies, &mut all)?;
    out.flush()
}
