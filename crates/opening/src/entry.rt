// The entry that a call starts at.
ghost use Rattle.std.specs.Prelude.{◌≡◌, eqb};
ghost use Rattle.words.specs.Choice.{both};
ghost use Rattle.container.specs.Container.{Container};
ghost use Rattle.container.specs.Reader.{layout_of};
ghost use Rattle.opening.specs.Opening.{within};
ghost use Rattle.opening.specs.Parts.{OpensAt, OpensIn};

use super::open::{Call, Opened};
use container::entries::EntryLayout;
use container::reader::Layout;
use keys::look::TableRows;
use state::fault::Fault;

// Whether an entry's call asks for the genesis selector.
fn asks_for_genesis(call: Call) -> bool
    ensures { result ≡ both call.entry (eqb call.selector call.host.genesis) }
{
    call.entry && call.selector == call.host.genesis
}

// At most 65536 bytes of code, 4096 constants, 256 entries.
fn sizes_within_limits(l: Layout) -> bool
    ensures { (c : Container) → l ≡ layout_of c → result ≡ within c }
{
    l.code <= 65536 && (l.consts <= 4096 && l.entries <= 256)
}

// The entry's slots, what opening costs, the entry's offset.
fn begin(
    call: Call,
    l: Layout,
    lent: TableRows,
    e: EntryLayout,
    code: &[u8],
) -> Result<Opened, Fault>
    ensures { OpensAt call l lent e code.now result }
{
    if !container::entries::slots_within_limit(e) {
        return Err(Fault::Malformed);
    }
    let used = meter::dispatch(l.code as u64);
    if call.limit < used {
        return Err(Fault::OutOfMeter);
    }
    if !super::unmapped::is_start(code, e.offset) {
        return Err(Fault::Malformed);
    }
    Ok(Opened {
        layout: l,
        entry: e,
        lent,
        used,
    })
}

// The call's selector, the container's sizes, then the entry.
pub fn enter(
    call: Call,
    l: Layout,
    lent: TableRows,
    container: &[u8],
    code: &[u8],
) -> Result<Opened, Fault>
    ensures { OpensIn call l lent container.now code.now result }
{
    if asks_for_genesis(call) {
        return Err(Fault::UnknownSelector);
    }
    if !sizes_within_limits(l) {
        return Err(Fault::Malformed);
    }
    let e = super::unique_entry::unique_entry(
        container,
        l.entries_at,
        l.entries,
        call.selector as u64,
    )?;
    begin(call, l, lent, e, code)
}
