// Does each register operation of standard input; a line for each.
// A record is an opcode (1 byte) and four words: the operands, or the number and the divisor, the high word first.
#![tactic(auto)]

use state::regs::{RegFile, Stepped};
use std::io;
use std::io::{BufWriter, Write};
use words::refusal::Refusal;

// The operation on registers 0 to 5: r1 and r2 hold the operands; or r3 and r2 the number, r5 and r4 the divisor.
fn operands(a: u64, b: u64, c: u64, d: u64) -> RegFile {
    RegFile::new()
        .set_reg(1, a)
        .set_reg(2, b)
        .set_reg(3, a)
        .set_reg(4, d)
        .set_reg(5, c)
}

// The fault, the target's word, and the upper word of an operation of seven bytes, which has two targets.
fn outcome<W: Write>(out: &mut W, f: RegFile, code: &[u8; 7]) -> io::Result<()> {
    let Ok((i, n)) = isa::codec::decode(code, 0) else {
        return Ok(());
    };
    let Stepped { file, fault } = f.step(i);
    if let Some(fault) = fault {
        print::number(out, Refusal::from(fault).number)?;
        return print::text(out, b" 0 0");
    }
    print::text(out, b" 0")?;
    print::number(out, file.reg(0))?;
    if n == 7 {
        print::number(out, file.reg(1))
    } else {
        print::text(out, b" 0")
    }
}

fn line<W: Write>(out: &mut W, op: u8, a: u64, b: u64, c: u64, d: u64) -> io::Result<()> {
    write!(out, "{op}")?;
    print::number(out, a)?;
    print::number(out, b)?;
    print::number(out, c)?;
    print::number(out, d)?;
    print::text(out, b":")?;
    outcome(out, operands(a, b, c, d), &[op, 0, 1, 2, 3, 4, 5])?;
    print::text(out, b"\n")
}

fn lines<W: Write>(out: &mut W, input: &[u8]) -> io::Result<()> {
    for record in input.as_chunks::<33>().0 {
        let a = words::bytes::read(record, 1, 8);
        let b = words::bytes::read(record, 9, 8);
        let c = words::bytes::read(record, 17, 8);
        let d = words::bytes::read(record, 25, 8);
        line(out, record[0], a, b, c, d)?;
    }
    Ok(())
}

fn main(rt: HostRuntime) -> io::Result<()> {
    let mut buffer = [0u8; 262144];
    let got = print::input::fill(&mut rt.reader(), &mut buffer)?;
    let mut out = BufWriter::new(rt.alloc(), io::writer(&rt))?;
    lines(&mut out, &buffer[..got])?;
    out.flush()
}
