// Reading what a program is given.
ghost use Rattle.std.specs.Prelude.{◌≤◌, ◌<◌, length, take, IfOk};
ghost use Rattle.std.specs.Io.KnownBytes.{Consumes, IsAtEnd};

use std::io;
use std::io::Read;

// Reads until the bytes are full or the input ends; how many it put at their front.
#[tactic(auto, using(crate::proofs::Consumed::consumes_more, crate::proofs::Consumed::read_behind))]
pub fn fill<R: Read>(from: &mut R, t: &mut [u8]) -> io::Result<usize>
    ensures bound { IfOk result (λ n. n ≤ length t.new) }
    ensures bytes { IfOk result (λ n. Consumes (R.remaining from.old) (R.remaining from.new) (take n t.new)) }
    ensures end { IfOk result (λ n. n < length t.new → IsAtEnd (R.remaining from.new)) }
{
    let mut done = 0;
    // No plainer: a turn goes as far as its read went, which no range or iterator counts.
    while done < t.len() {
        let n = from.read(&mut t[done..])?;
        if n == 0 {
            break;
        }
        done += n;
    }
    Ok(done)
}
