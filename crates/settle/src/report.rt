// What a call left, line by line.
use interp::answer::Answer;
use lines::LINE;
use std::io;
use std::io::Write;

// The longest effect's line: a region of the whole memory.
const EFFECT_LINE: usize = 131152;

pub fn answer<W: Write>(out: &mut W, a: Answer, limit: u64) -> io::Result<()> {
    let mut line = [0u8; LINE];
    let end = a.end;
    let n = lines::answer::end_line(&mut line, end.number, end.argument, a.fetches);
    crate::said::line(out, &line, n)?;
    if end.number == 0 {
        let m = lines::answer::used_line(&mut line, a.used, limit);
        crate::said::line(out, &line, m)?;
    }
    crate::said::count(out, b"fetches", a.fetches)
}

// The first n rows.
pub fn changes<W: Write>(out: &mut W, t: &[u8], n: usize) -> io::Result<()> {
    crate::said::count(out, b"changes", n as u64)?;
    let mut line = [0u8; LINE];
    for row in t.as_chunks::<40>().0.iter().take(n) {
        let k = lines::answer::change_line(&mut line, row);
        crate::said::line(out, &line, k)?;
    }
    Ok(())
}

// The effects of a log, in the order of their posting: each is found by a walk from the log's end.
pub fn effects<W: Write>(out: &mut W, log: &[u8]) -> io::Result<()> {
    let n = effects::counts::records(log);
    crate::said::count(out, b"effects", n as u64)?;
    let mut line = [0u8; EFFECT_LINE];
    for newer in (0..n).rev() {
        let at = lines::effect::end_before_newest(log, newer);
        if at == 0 {
            break;
        }
        let k = lines::effect::effect_line(&mut line, log, at);
        crate::said::line(out, &line, k)?;
    }
    Ok(())
}
