// The new store: what a halted run leaves of the store it was given.
ghost use Rattle.std.specs.Prelude.{◌≡◌, ◌+◌, ◌*◌, ◌≤◌, length, drop};
ghost use Rattle.tables.specs.Rows.{row_in, rows};
ghost use Rattle.tables.specs.Table.{Table};
ghost use Rattle.tables.specs.Checked.{checked_of};
ghost use Rattle.tables.specs.Content.{content};
ghost use Rattle.changes.specs.ChangeList.{counted_rows, rows_of};
ghost use Rattle.changes.specs.Merge.{merged, merge_answer, merge_output};
ghost use Rattle.changes.specs.RowPut.{RowPut};

use crate::ChangeError;
use tables::rows::Rows;

// Puts a row into the first m rows, which have room for it; how many there are then. Bytes and count stay apart: both change in a turn.
fn put_row(t: &mut [u8], m: usize, row: &[u8]) -> usize
    requires { Table 40 m t.old × (length row.now ≡ 40) × ((m + 1) * 40 ≤ length t.old) }
    ensures { RowPut (row_in 40 row.now) m t.old t.new result }
{
    tables::store::insert(t, m, row).unwrap_or(m)
}

// Puts rows into the first m rows, which have room for them; how many there are then.
fn put_rows(t: &mut [u8], m: usize, changes: Rows<40>) -> usize
    requires { Table 40 m t.old × ((m + changes.count) * 40 ≤ length t.old) }
    ensures { (rows 40 result t.new ≡ merged (content changes.entry) (rows 40 m t.old)) ×
        (drop (result * 40) t.new ≡ drop (result * 40) t.old) }
{
    let mut k = m;
    for row in changes.bytes[..changes.count * 40].chunks_exact(40) {
        k = put_row(t, k, row);
    }
    k
}

// The new store over checked tables, if the output has room for the rows of both.
fn merge_whole(changes: Rows<40>, store: Rows<40>, out: &mut [u8]) -> Result<usize, ChangeError>
    requires { length store.bytes.now ≡ store.count * 40 }
    ensures answer { result ≡ merge_answer (Some (content changes.entry)) (Some (content store.entry)) out.old }
    ensures output { out.new ≡ merge_output (Some (content changes.entry)) (Some (content store.entry)) out.old }
{
    if out.len() / 40 < store.count + changes.count {
        return Err(ChangeError::NoRoom);
    }
    words::bytes::copy_in(out, 0, store.bytes);
    Ok(put_rows(out, store.count, changes))
}

// The store's rows with the counted changes put in, rising. The count comes apart, as the C interface lends it.
pub fn merge(
    changes: &[u8],
    count: usize,
    store: &[u8],
    out: &mut [u8],
) -> Result<usize, ChangeError>
    ensures answer { result ≡
        merge_answer (counted_rows changes.now count) (rows_of (checked_of 40 store.now) store.now) out.old }
    ensures output { out.new ≡
        merge_output (counted_rows changes.now count) (rows_of (checked_of 40 store.now) store.now) out.old }
{
    let changes = crate::counted(changes, count).ok_or(ChangeError::BadTable)?;
    let store = Rows::check(store).ok_or(ChangeError::BadTable)?;
    merge_whole(changes, store, out)
}
