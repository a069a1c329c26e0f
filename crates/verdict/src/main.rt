// Reads one container from standard input and prints what verify says of it.
#![tactic(auto)]

use std::io;

fn main(rt: HostRuntime) -> io::Result<()> {
    // One byte more than a container may have, so that a longer one shows.
    let mut input = [0u8; 49153];
    let got = print::input::fill(&mut rt.reader(), &mut input)?;
    let mut line = [0u8; lines::LINE];
    let n = lines::verdict::line(&input[..got], &mut line);
    print::front(&mut io::writer(&rt), &line, n)
}
