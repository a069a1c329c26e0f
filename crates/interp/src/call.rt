// A call, for an entry or for genesis: opened and run over lent buffers.
ghost use Rattle.std.specs.Prelude.{◌≡◌, eqb};
ghost use Rattle.words.specs.Choice.{both};
ghost use Rattle.keys.specs.Lent as tables;
ghost use Rattle.opening.specs.Opened.{input_of};
ghost use Rattle.interp.specs.Call.{lent_as, called, call_of};

use crate::answer::Answer;
use crate::program::Input;
use crate::work::Work;
use opening::open::Call;
use state::fault::Fault;
use words::refusal::Refusal;

// Memory of 65536 bytes, a stack of 1024 words, a map of 8192 bytes.
fn sizes_fit(memory: usize, stack: usize, starts: usize) -> bool
    ensures { result ≡ both (eqb memory 65536) (both (eqb stack 1024) (eqb starts 8192)) }
{
    memory == 65536 && stack == 1024 && starts == 8192
}

// The call's answer; a refused opening touches nothing. The buffers stand one by one, as the C interface lends them.
pub fn run(
    call: Call,
    container: &[u8],
    store: &[u8],
    loader: &[u8],
    replies: &[u8],
    preload: &[u8],
    memory: &mut [u8],
    stack: &mut [u64],
    starts: &mut [u8],
    changes: &mut [u8],
    fetched: &mut [u8],
    readable: &mut [u8],
    writable: &mut [u8],
    paid: &mut [u8],
    log: &mut [u8],
) -> Answer
    ensures { called result
        (lent_as memory.new stack.new
        (tables.key_bufs changes.new fetched.new readable.new writable.new paid.new)
        log.new starts.new)
        ≡ call_of
        (input_of call
        container.now store.now loader.now replies.now preload.now)
        (lent_as memory.old stack.old
        (tables.key_bufs changes.old fetched.old readable.old writable.old paid.old)
        log.old starts.old) }
{
    if !sizes_fit(memory.len(), stack.len(), starts.len()) {
        return crate::answer::refused(Refusal::from(Fault::BadBuffer), 0);
    }
    match opening::open::open(call, container, store, loader, replies) {
        Ok(x) => {
            let input = Input {
                call,
                container,
                store,
                loader,
                replies,
                preload,
            };
            let mut work = Work {
                memory,
                stack,
                changes,
                fetched,
                readable,
                writable,
                paid,
                log,
            };
            crate::enter::enter(x, input, &mut work, starts)
        }
        Err(end) => crate::answer::refused(end, 0),
    }
}
