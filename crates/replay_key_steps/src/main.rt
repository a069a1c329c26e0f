// Drives loads, stores and authorisations through the runs of standard input; a line for each record.
// A run is a length (4 bytes) and that many bytes: a head, then records. run.rt and steps.rt say how these lie.
#![tactic(auto)]

mod authorise;
mod lent;
mod load;
mod operation;
mod run;
mod steps;
mod store;
mod tell;

use std::io;
use std::io::{BufWriter, Write};

fn runs<W: Write>(out: &mut W, input: &[u8]) -> io::Result<()> {
    let mut rest = input;
    while let Some((length, tail)) = rest.split_first_chunk::<4>() {
        let Some((run, next)) = tail.split_at_checked(u32::from_be_bytes(*length) as usize) else {
            break;
        };
        crate::run::run(out, run)?;
        rest = next;
    }
    Ok(())
}

fn main(rt: HostRuntime) -> io::Result<()> {
    let mut buffer = [0u8; 262144];
    let got = print::input::fill(&mut rt.reader(), &mut buffer)?;
    let mut out = BufWriter::new(rt.alloc(), io::writer(&rt))?;
    runs(&mut out, &buffer[..got])?;
    out.flush()
}
