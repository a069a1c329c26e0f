// Calls: opened and run over lent buffers.
ghost use Rattle.std.specs.Prelude.{◌≡◌};
ghost use Rattle.keys.specs.Lent as tables;
ghost use Rattle.opening.specs.Opened.{entry_call, genesis_call, input_of};
ghost use Rattle.interp.specs.Call.{lent_as};
ghost use Rattle.gateway.specs.Boundary.{told};
ghost use Rattle.gateway.specs.Words.{answer_words};
ghost use Rattle.gateway.specs.Gateway.{host_as, is_present, gateway_of};

use interp::answer::Answer;
use machine::host::Host;
use opening::open::Call;

// The words of a call's answer.
const WORDS: usize = 23;

fn answer_words(a: Answer) -> [u64; 23]
    ensures { result ≡ answer_words a }
{
    let end = a.end;
    let file = a.regs;
    let r = file.r;
    [
        end.number,
        end.argument,
        a.fetches,
        a.used,
        a.fetched,
        a.changes,
        a.log,
        r[0],
        r[1],
        r[2],
        r[3],
        r[4],
        r[5],
        r[6],
        r[7],
        r[8],
        r[9],
        r[10],
        r[11],
        r[12],
        r[13],
        r[14],
        r[15],
    ]
}

// A call opened and run, and the words of its answer; nothing is touched where they have no room.
// The buffers stand one by one, as the C interface lends them.
fn answer_call(
    call: Call,
    container: &[u8],
    store: &[u8],
    loader: &[u8],
    replies: &[u8],
    preload: &[u8],
    memory: &mut [u8],
    stack: &mut [u64],
    starts: &mut [u8],
    changes: &mut [u8],
    fetched: &mut [u8],
    reads: &mut [u8],
    writes: &mut [u8],
    fresh: &mut [u8],
    log: &mut [u8],
    answer: &mut [u64],
) -> u32
    ensures { told result answer.new
        (lent_as memory.new stack.new
        (tables.key_bufs changes.new fetched.new reads.new writes.new fresh.new)
        log.new starts.new)
        ≡ gateway_of
        (input_of call
        container.now store.now loader.now replies.now preload.now)
        (lent_as memory.old stack.old
        (tables.key_bufs changes.old fetched.old reads.old writes.old fresh.old)
        log.old starts.old)
        answer.old }
{
    if answer.len() < WORDS {
        return 48;
    }
    let a = interp::call::run(
        call, container, store, loader, replies, preload, memory, stack, starts, changes, fetched,
        reads, writes, fresh, log,
    );
    let words = answer_words(a);
    super::answer::put(answer, &words)
}

// An entry's call.
#[unsafe(no_mangle)]
pub extern "C" fn qvm_for_entry(
    container: &[u8],
    selector: u32,
    limit: u64,
    genesis: u32,
    ml_signed: u64,
    slh_signed: u64,
    store: &[u8],
    has_loader: u8,
    loader: &[u8],
    replies: &[u8],
    preload: &[u8],
    memory: &mut [u8],
    stack: &mut [u64],
    starts: &mut [u8],
    changes: &mut [u8],
    fetched: &mut [u8],
    reads: &mut [u8],
    writes: &mut [u8],
    fresh: &mut [u8],
    log: &mut [u8],
    answer: &mut [u64],
) -> u32
    ensures { told result answer.new
        (lent_as memory.new stack.new
        (tables.key_bufs changes.new fetched.new reads.new writes.new fresh.new)
        log.new starts.new)
        ≡ gateway_of
        (input_of (entry_call selector limit (host_as genesis ml_signed slh_signed) (is_present has_loader))
        container.now store.now loader.now replies.now preload.now)
        (lent_as memory.old stack.old
        (tables.key_bufs changes.old fetched.old reads.old writes.old fresh.old)
        log.old starts.old)
        answer.old }
{
    let host = Host {
        genesis,
        ml_signed,
        slh_signed,
    };
    answer_call(
        Call::for_entry(selector, limit, host, has_loader != 0),
        container,
        store,
        loader,
        replies,
        preload,
        memory,
        stack,
        starts,
        changes,
        fetched,
        reads,
        writes,
        fresh,
        log,
        answer,
    )
}

// The call of the genesis entry.
#[unsafe(no_mangle)]
pub extern "C" fn qvm_for_genesis(
    container: &[u8],
    limit: u64,
    genesis: u32,
    ml_signed: u64,
    slh_signed: u64,
    store: &[u8],
    has_loader: u8,
    loader: &[u8],
    replies: &[u8],
    preload: &[u8],
    memory: &mut [u8],
    stack: &mut [u64],
    starts: &mut [u8],
    changes: &mut [u8],
    fetched: &mut [u8],
    reads: &mut [u8],
    writes: &mut [u8],
    fresh: &mut [u8],
    log: &mut [u8],
    answer: &mut [u64],
) -> u32
    ensures { told result answer.new
        (lent_as memory.new stack.new
        (tables.key_bufs changes.new fetched.new reads.new writes.new fresh.new)
        log.new starts.new)
        ≡ gateway_of
        (input_of (genesis_call limit (host_as genesis ml_signed slh_signed) (is_present has_loader))
        container.now store.now loader.now replies.now preload.now)
        (lent_as memory.old stack.old
        (tables.key_bufs changes.old fetched.old reads.old writes.old fresh.old)
        log.old starts.old)
        answer.old }
{
    let host = Host {
        genesis,
        ml_signed,
        slh_signed,
    };
    answer_call(
        Call::for_genesis(limit, host, has_loader != 0),
        container,
        store,
        loader,
        replies,
        preload,
        memory,
        stack,
        starts,
        changes,
        fetched,
        reads,
        writes,
        fresh,
        log,
        answer,
    )
}
