// What a run starts from.
ghost use Rattle.std.specs.Prelude.{◌≡◌};
ghost use Rattle.interp.specs.Begins.{first_run, Begins};
ghost use Rattle.interp.specs.Held.{held_with, Kept};

use crate::work::Work;
use keys::counts::Counts;
use machine::run::Run;
use meter::Meter;

// Nothing stacked, known or posted, no reply used, and what opening costs paid.
pub fn first_run(offset: u64, used: u64, limit: u64) -> Run
    ensures { result ≡ first_run offset used limit }
{
    Run {
        pc: offset,
        depth: 0,
        counts: Counts {
            changes: 0,
            fetched: 0,
            reads: 0,
            writes: 0,
            paid: 0,
        },
        log: 0,
        events: 0,
        posted: 0,
        keyed: 0,
        replies: 0,
        meter: Meter { used, limit },
        fetches: 0,
    }
}

// Zeroes all working buffers, marks the code's instruction starts and loads the preload.
pub(crate) fn begin(code: &[u8], preload: &[u8], work: &mut Work, starts: &mut [u8])
    ensures kept { Kept work.old work.new }
    ensures begins { Begins code.now preload.now (held_with work.old starts.old) (held_with work.new starts.new) }
{
    crate::buffers::wipe_work(work, starts);
    work.changes.fill(0);
    work.log.fill(0);
    // A call's code may end anywhere: what stands before its end is marked.
    let _ = starts::scan::scan(code, 65536, starts);
    crate::buffers::preload(work.memory, preload);
}
