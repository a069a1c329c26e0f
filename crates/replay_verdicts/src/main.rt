// Prints what verify says of each container of standard input: a length (4 bytes) and that many bytes.
// From 2^31 on a length stands for a container with so many zero bytes of code more.
#![tactic(auto)]

use container_verify::verify::verify;
use std::io;
use std::io::{BufWriter, Write};

const LARGE: usize = 0x8000_0000;

fn line<W: Write>(out: &mut W, container: &[u8]) -> io::Result<()> {
    let mut buffer = [0u8; lines::LINE];
    let n = lines::verdict::line_for(&mut buffer, verify(container));
    print::front(out, &buffer, n)
}

// The most zero bytes of code that are asked for; the tag and three counts take 16 more.
const MOST: usize = 65584;

// A container with n zero bytes of code.
fn large<W: Write>(out: &mut W, n: usize) -> io::Result<()> {
    let mut bytes = [0u8; MOST + 16];
    if n > MOST {
        return Ok(());
    }
    bytes[..4].copy_from_slice(b"QVM1");
    words::bytes::write(&mut bytes, 4, 4, n as u64);
    line(out, &bytes[..n + 16])
}

fn lines<W: Write>(out: &mut W, input: &[u8]) -> io::Result<()> {
    let mut rest = input;
    while let Some((length, tail)) = rest.split_first_chunk::<4>() {
        let n = u32::from_be_bytes(*length) as usize;
        if n >= LARGE {
            large(out, n - LARGE)?;
            rest = tail;
            continue;
        }
        let Some((bytes, next)) = tail.split_at_checked(n) else {
            break;
        };
        line(out, bytes)?;
        rest = next;
    }
    Ok(())
}

fn main(rt: HostRuntime) -> io::Result<()> {
    let mut buffer = [0u8; 655360];
    let got = print::input::fill(&mut rt.reader(), &mut buffer)?;
    let mut out = BufWriter::new(rt.alloc(), io::writer(&rt))?;
    lines(&mut out, &buffer[..got])?;
    out.flush()
}
