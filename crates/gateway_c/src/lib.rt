// The gateway's calls as a static library for C (include/qvm.h): each export is gateway's function of its name.
#![tactic(auto)]

ghost use Rattle.std.specs.Prelude.{◌≡◌};
ghost use Rattle.container.specs.Reader.{read_of};
ghost use Rattle.container_verify.specs.Verify.{verified_of};
ghost use Rattle.container.specs.Offsets.{offset_of};
ghost use Rattle.container_writer.specs.Writer.{to_write};
ghost use Rattle.gateway.specs.Boundary.{answered, answered_of, told};
ghost use Rattle.gateway.specs.Words.{verified_words, offset_words};
ghost use Rattle.gateway.specs.Gateway.{writer_of, host_as, is_present, gateway_of, changes_of};
ghost use Rattle.opening.specs.Opened.{entry_call, genesis_call, input_of};
ghost use Rattle.interp.specs.Call.{lent_as};
ghost use Rattle.changes.specs.ChangeList.{list_of};
ghost use Rattle.keys.specs.Lent as tables;

// Whether a container is valid, and how many code bytes, constants and entries it has.
#[unsafe(no_mangle)]
pub extern "C" fn qvm_verify(container: &[u8], answer: &mut [u64]) -> u32
    ensures { answered result answer.new ≡ answered_of (verified_words (verified_of (read_of container.now))) answer.old }
{
    gateway::containers::qvm_verify(container, answer)
}

// The offset of the first entry with a selector.
#[unsafe(no_mangle)]
pub extern "C" fn qvm_entry_offset(container: &[u8], selector: u32, answer: &mut [u64]) -> u32
    ensures { answered result answer.new ≡ answered_of (offset_words (offset_of selector (read_of container.now))) answer.old }
{
    gateway::containers::qvm_entry_offset(container, selector, answer)
}

// The canonical bytes of code, constants and a list of entries.
#[unsafe(no_mangle)]
pub extern "C" fn qvm_canonical_bytes(
    code: &[u8],
    constants: &[u64],
    entries: &[u64],
    out: &mut [u8],
    answer: &mut [u64],
) -> u32
    ensures { told result answer.new out.new ≡
        writer_of (to_write code.now constants.now entries.now) out.old answer.old }
{
    gateway::containers::qvm_canonical_bytes(code, constants, entries, out, answer)
}

// An entry's call.
#[unsafe(no_mangle)]
pub extern "C" fn qvm_for_entry(
    container: &[u8],
    selector: u32,
    limit: u64,
    genesis: u32,
    ml_signed: u64,
    slh_signed: u64,
    store: &[u8],
    has_loader: u8,
    loader: &[u8],
    replies: &[u8],
    preload: &[u8],
    memory: &mut [u8],
    stack: &mut [u64],
    starts: &mut [u8],
    changes: &mut [u8],
    fetched: &mut [u8],
    reads: &mut [u8],
    writes: &mut [u8],
    fresh: &mut [u8],
    log: &mut [u8],
    answer: &mut [u64],
) -> u32
    ensures { told result answer.new
        (lent_as memory.new stack.new
        (tables.key_bufs changes.new fetched.new reads.new writes.new fresh.new)
        log.new starts.new)
        ≡ gateway_of
        (input_of (entry_call selector limit (host_as genesis ml_signed slh_signed) (is_present has_loader))
        container.now store.now loader.now replies.now preload.now)
        (lent_as memory.old stack.old
        (tables.key_bufs changes.old fetched.old reads.old writes.old fresh.old)
        log.old starts.old)
        answer.old }
{
    gateway::calls::qvm_for_entry(
        container, selector, limit, genesis, ml_signed, slh_signed, store, has_loader, loader,
        replies, preload, memory, stack, starts, changes, fetched, reads, writes, fresh, log,
        answer,
    )
}

// The call of the genesis entry.
#[unsafe(no_mangle)]
pub extern "C" fn qvm_for_genesis(
    container: &[u8],
    limit: u64,
    genesis: u32,
    ml_signed: u64,
    slh_signed: u64,
    store: &[u8],
    has_loader: u8,
    loader: &[u8],
    replies: &[u8],
    preload: &[u8],
    memory: &mut [u8],
    stack: &mut [u64],
    starts: &mut [u8],
    changes: &mut [u8],
    fetched: &mut [u8],
    reads: &mut [u8],
    writes: &mut [u8],
    fresh: &mut [u8],
    log: &mut [u8],
    answer: &mut [u64],
) -> u32
    ensures { told result answer.new
        (lent_as memory.new stack.new
        (tables.key_bufs changes.new fetched.new reads.new writes.new fresh.new)
        log.new starts.new)
        ≡ gateway_of
        (input_of (genesis_call limit (host_as genesis ml_signed slh_signed) (is_present has_loader))
        container.now store.now loader.now replies.now preload.now)
        (lent_as memory.old stack.old
        (tables.key_bufs changes.old fetched.old reads.old writes.old fresh.old)
        log.old starts.old)
        answer.old }
{
    gateway::calls::qvm_for_genesis(
        container, limit, genesis, ml_signed, slh_signed, store, has_loader, loader, replies,
        preload, memory, stack, starts, changes, fetched, reads, writes, fresh, log, answer,
    )
}

// The stored keys whose last value differs from the starting value.
#[unsafe(no_mangle)]
pub extern "C" fn qvm_change_list(
    changes: &[u8],
    count: u64,
    store: &[u8],
    has_loader: u8,
    loader: &[u8],
    out: &mut [u8],
    answer: &mut [u64],
) -> u32
    ensures { told result answer.new out.new ≡
        changes_of (list_of
        (record {
          changes = changes.entry.now;
          count = count;
          store = store.now;
          has_loader = is_present has_loader;
          loader = loader.now;
        })) out.old answer.old }
{
    gateway::settled::qvm_change_list(changes, count, store, has_loader, loader, out, answer)
}
