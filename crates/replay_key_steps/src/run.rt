// One run: whether there is a loader (1 byte), how many rows store and loader have (1 each), four lists of twelve slots (96 each:
// reads, writes, keyed reads, keyed writes), the store's rows, the loader's rows (40 each), then records.
ghost use Rattle.std.specs.Prelude.{IfSome};
ghost use Rattle.replay_key_steps.specs.Sound.{Lends};

use crate::lent::Lent;
use keys::look::TableRows;
use std::io;
use std::io::Write;

// The rows of store and loader, if their keys rise.
fn rows_of(has_loader: bool, store: &[u8], loader: &[u8]) -> Option<TableRows>
    ensures { IfSome result (λ n. Lends n store.now loader.now) }
{
    Some(TableRows {
        store: tables::check::check(store, 40)?,
        has_loader,
        loader: tables::check::check_if(has_loader, loader, 40)?,
    })
}

fn checked<W: Write>(
    out: &mut W,
    has_loader: bool,
    slots: &[u8; 384],
    store: &[u8],
    loader: &[u8],
    records: &[u8],
) -> io::Result<()> {
    let Some(rows) = rows_of(has_loader, store, loader) else {
        return print::text(out, b"no 45\n");
    };
    let lent = Lent {
        rows,
        slots,
        store,
        loader,
    };
    crate::steps::steps(out, lent, records)
}

// A head of 387 bytes, then the parts as long as it says.
pub fn run<W: Write>(out: &mut W, part: &[u8]) -> io::Result<()> {
    let Some((head, rest)) = part.split_first_chunk::<387>() else {
        return Ok(());
    };
    let Some((store, rest)) = rest.split_at_checked(head[1] as usize * 40) else {
        return Ok(());
    };
    let Some((loader, records)) = rest.split_at_checked(head[2] as usize * 40) else {
        return Ok(());
    };
    let slots = head[3..].as_array().unwrap();
    checked(out, head[0] == 1, slots, store, loader, records)
}
