// Takes each step of standard input on the bench, one register file from the first to the last; a line for each.
// A step is an opcode (1 byte), six registers (1 each), of which an instruction has as many as it names, and a word, which Ldi has.
#![tactic(auto)]

ghost use Rattle.std.specs.Prelude.{◌≤◌, length};

use isa::instr::{Instr, branch, jump, plain, with_one, with_six, with_three, with_two};
use isa::opcode::OpCode;
use state::bench::bench_local;
use state::regs::RegFile;
use std::io;
use std::io::{BufWriter, Write};
use words::refusal::Refusal;

fn instruction(op: OpCode, s: &[u8]) -> Instr
    requires { 14 ≤ length s.now }
{
    let r0 = s[0];
    match (op.wide(), op.registers()) {
        (0, 0) => plain(op),
        (0, 1) => with_one(op, r0),
        (0, 2) => with_two(op, r0, s[1]),
        (0, 3) => with_three(op, r0, s[1], s[2]),
        (0, _) => with_six(op, r0, s[1], s[2], s[3], s[4], s[5]),
        (2, _) => Instr::Ldc { d: r0, idx: 0 },
        (4, 0) => jump(op, 0),
        (4, _) => branch(op, r0, 0),
        _ => Instr::Ldi {
            d: r0,
            imm: words::bytes::read(s, 6, 8),
        },
    }
}

fn registers<W: Write>(out: &mut W, file: RegFile) -> io::Result<()> {
    for &r in &file.r {
        print::number(out, r)?;
    }
    Ok(())
}

fn step<W: Write>(out: &mut W, file: RegFile, opcode: u8, s: &[u8]) -> io::Result<RegFile>
    requires { 14 ≤ length s.now }
{
    let Some(op) = OpCode::from_byte(opcode) else {
        return Ok(file);
    };
    let done = bench_local(file, instruction(op, s));
    write!(out, "{opcode}")?;
    print::bytes(out, s, 6, false)?;
    print::number(out, words::bytes::read(s, 6, 8))?;
    print::text(out, b":")?;
    print::number(out, done.fault.map_or(0, |f| Refusal::from(f).number))?;
    registers(out, done.file)?;
    print::text(out, b"\n")?;
    Ok(done.file)
}

fn lines<W: Write>(out: &mut W, input: &[u8]) -> io::Result<()> {
    let mut file = RegFile::new();
    for record in input.as_chunks::<15>().0 {
        file = step(out, file, record[0], &record[1..])?;
    }
    Ok(())
}

fn main(rt: HostRuntime) -> io::Result<()> {
    let mut buffer = [0u8; 32768];
    let got = print::input::fill(&mut rt.reader(), &mut buffer)?;
    let mut out = BufWriter::new(rt.alloc(), io::writer(&rt))?;
    lines(&mut out, &buffer[..got])?;
    out.flush()
}
