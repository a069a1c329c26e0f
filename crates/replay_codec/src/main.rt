// Decodes each record of standard input and encodes what it decoded; a line for each.
// A record is a place (8 bytes), a count (1 byte) and that many bytes of code.
#![tactic(auto)]

use isa::codec::{DecodeError, decode, encode};
use isa::instr::{Instr, Parts};
use isa::opcode::OpCode;
use std::io;
use std::io::{BufWriter, Write};
use words::refusal::Refusal;

// The opcode's byte, the registers, and the number if there is one.
fn fields<W: Write>(out: &mut W, i: Instr) -> io::Result<()> {
    let Parts(op, r, number) = i.parts_of();
    print::number(out, op.byte() as u64)?;
    print::bytes(out, &r, op.registers(), false)?;
    if op.wide() > 0 {
        print::number(out, number)?;
    }
    Ok(())
}

// A refusal's number and argument.
fn numbers<W: Write>(out: &mut W, why: Refusal) -> io::Result<()> {
    print::number(out, why.number)?;
    print::number(out, why.argument)
}

// What encode answers when the buffer is a byte short of n.
fn shortened<W: Write>(out: &mut W, i: Instr, buffer: &mut [u8], n: usize) -> io::Result<()> {
    let Some(k) = n.checked_sub(1) else {
        return Ok(());
    };
    let Some(short) = buffer.get_mut(..k) else {
        return Ok(());
    };
    if let Err(e) = encode(i, short) {
        print::text(out, b" short")?;
        numbers(out, Refusal::from(e))?;
    }
    Ok(())
}

fn encoded<W: Write>(out: &mut W, i: Instr) -> io::Result<()> {
    let mut buffer = [0u8; OpCode::MAX_LENGTH];
    if let Ok(n) = encode(i, &mut buffer) {
        print::bytes(out, &buffer, n, true)?;
        shortened(out, i, &mut buffer, n)?;
    }
    Ok(())
}

fn refused<W: Write>(out: &mut W, e: DecodeError) -> io::Result<()> {
    print::text(out, b"no")?;
    numbers(out, Refusal::from(e))
}

fn line<W: Write>(out: &mut W, code: &[u8], place: usize) -> io::Result<()> {
    if code.is_empty() {
        print::text(out, b"-")?;
    }
    print::bytes(out, code, code.len(), true)?;
    print::text(out, b" @")?;
    print::number(out, place as u64)?;
    print::text(out, b": ")?;
    match decode(code, place) {
        Ok((i, n)) => {
            print::text(out, b"ok")?;
            print::number(out, n as u64)?;
            fields(out, i)?;
            print::text(out, b" = ")?;
            encoded(out, i)?;
        }
        Err(e) => refused(out, e)?,
    }
    print::text(out, b"\n")
}

fn lines<W: Write>(out: &mut W, input: &[u8]) -> io::Result<()> {
    let mut rest = input;
    while let Some((head, tail)) = rest.split_first_chunk::<9>() {
        let place = words::bytes::read(head, 0, 8) as usize;
        let Some((code, next)) = tail.split_at_checked(head[8] as usize) else {
            break;
        };
        line(out, code, place)?;
        rest = next;
    }
    Ok(())
}

fn main(rt: HostRuntime) -> io::Result<()> {
    let mut buffer = [0u8; 65536];
    let got = print::input::fill(&mut rt.reader(), &mut buffer)?;
    let mut out = BufWriter::new(rt.alloc(), io::writer(&rt))?;
    lines(&mut out, &buffer[..got])?;
    out.flush()
}
