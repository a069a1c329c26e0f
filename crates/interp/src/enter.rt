// An accepted opening, run over the container's parts where they stand: begun, run and finished.
ghost use Rattle.interp.specs.Held.{held_with, Kept, EnteredIn, EntersIn};

use crate::answer::Answer;
use crate::program::{Input, Program};
use crate::work::Work;
use container::entries::{Slots, words_of};
use opening::open::Opened;

#[tactic(auto, using(crate::specs::EnterLaws::within))]
pub(crate) fn enter(o: Opened, input: Input, work: &mut Work, starts: &mut [u8]) -> Answer
    requires { EnteredIn o input (held_with work.old starts.old) }
    ensures kept { Kept work.old work.new }
    ensures enters { EntersIn o input.entry (held_with work.old starts.old) result (held_with work.new starts.new) }
{
    let container = input.container;
    let l = o.layout;
    let e = o.entry;
    let code = words::bytes::part(container, l.code_at, l.code);
    let consts = words_of(
        container,
        Slots {
            at: l.consts_at,
            count: l.consts,
        },
    );
    let reads = words_of(container, e.reads);
    let writes = words_of(container, e.writes);
    let keyed_reads = words_of(container, e.keyed_reads);
    let keyed_writes = words_of(container, e.keyed_writes);
    let start = crate::begin::first_run(e.offset, o.used, input.call.limit);
    crate::begin::begin(code, input.preload, work, starts);
    let program = Program {
        code,
        consts,
        reads,
        writes,
        keyed_reads,
        keyed_writes,
        store: input.store,
        loader: input.loader,
        replies: input.replies,
        starts,
        lent: o.lent,
        host: input.call.host,
    };
    let x = crate::exec::exec(start, program, work);
    crate::finish::finish(x, work, starts)
}
