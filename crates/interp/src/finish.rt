// What a run leaves.
ghost use Rattle.std.specs.Prelude.{◌≡◌};
ghost use Rattle.interp.specs.Finished.{halt_answer, Finishes, Closes};
ghost use Rattle.interp.specs.Held.{held_with, Kept};

use crate::answer::Answer;
use crate::exec::Ended;
use crate::work::Work;
use words::refusal::Refusal;

// The answer of a halt.
fn halted(x: Ended) -> Answer
    ensures { result ≡ halt_answer x }
{
    let run = x.run;
    let rows = run.counts;
    let meter = run.meter;
    let file = x.file;
    Answer {
        end: Refusal::numbered(0),
        fetches: x.fetches,
        used: meter.used,
        fetched: rows.fetched as u64,
        changes: rows.changes as u64,
        log: run.log as u64,
        regs: file,
    }
}

// Zeroes both after a fault; after a halt both stay. Lent as slices: of a slice it is known that it holds bytes.
#[tactic(auto, using(crate::specs::FinishLaws::closes_fault, crate::specs::FinishLaws::closes_halt))]
fn close(x: Ended, changes: &mut [u8], log: &mut [u8]) -> Answer
    ensures { Closes x changes.old log.old result changes.new log.new }
{
    let end = x.end;
    if end.number != 0 {
        changes.fill(0);
        log.fill(0);
        return crate::answer::refused(end, x.fetches);
    }
    halted(x)
}

// Zeroes all working buffers; after a halt all but the changes and the log.
pub(crate) fn finish(x: Ended, work: &mut Work, starts: &mut [u8]) -> Answer
    ensures kept { Kept work.old work.new }
    ensures finishes { Finishes x (held_with work.old starts.old) result (held_with work.new starts.new) }
{
    crate::buffers::wipe_work(work, starts);
    close(x, work.changes, work.log)
}
