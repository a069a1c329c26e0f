// Lent buffers cleared and filled.
ghost use Rattle.std.specs.Prelude.{◌≡◌, ◌++◌, length, drop, take};
ghost use Rattle.interp.specs.Wiping.{wiped_but};
ghost use Rattle.interp.specs.Held.{held_with, Kept};

use crate::work::Work;

// The preload over memory from its start, as far as memory reaches. By `copy_in`, which calls no memmove.
pub fn preload(memory: &mut [u8], preload: &[u8])
    ensures { memory.new ≡ take (length memory.old) preload.now ++ drop (length preload.now)
        memory.old }
{
    let n = memory.len();
    if preload.len() <= n {
        words::bytes::copy_in(memory, 0, preload);
    } else {
        words::bytes::copy_in(memory, 0, &preload[..n]);
    }
}

// All that a run leaves zero whatever its end: memory, stack, map, and the four tables that are not handed on.
pub(crate) fn wipe_work(work: &mut Work, starts: &mut [u8])
    ensures kept { Kept work.old work.new }
    ensures wiped { held_with work.new starts.new ≡ wiped_but (held_with work.old starts.old) work.old.changes.now work.old.log.now }
{
    work.memory.fill(0);
    work.stack.fill(0);
    starts.fill(0);
    work.fetched.fill(0);
    work.readable.fill(0);
    work.writable.fill(0);
    work.paid.fill(0);
}
