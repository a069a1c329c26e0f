// The change list: what a halted run changed, for reconciliation; and the new store.
#![tactic(auto)]

pub mod merge;

ghost use Rattle.std.specs.Prelude.{◌≡◌, ◌*◌, ◌≤◌, length, MatchOption};
ghost use Rattle.words.specs.Bytes.{num};
ghost use Rattle.tables.specs.Rows.{row_in, rows};
ghost use Rattle.tables.specs.Content.{content};
ghost use Rattle.changes.specs.ChangeList.{change_error, start_of, lent, counted_rows, list_of, answer_of, list_output};
ghost use Rattle.changes.specs.Changed.{sameb, changed_in, written};

use tables::rows::Rows;
use words::refusal::Refusal;

// Why there is no list, or no new store.
#[derive(Clone, Copy, Debug, PartialEq, Eq)]
pub enum ChangeError {
    BadTable,
    NoRoom,
}

impl From<ChangeError> for Refusal {
    ghost from_gives = { λ e r. r ≡ change_error e };

    fn from(e: ChangeError) -> Refusal {
        match e {
            ChangeError::BadTable => Refusal::numbered(45),
            ChangeError::NoRoom => Refusal::numbered(48),
        }
    }
}

// A key's starting value: the store's, else the loader's, else 0.
#[tactic(auto, unfolding(crate::specs::ChangeList::start_of, crate::specs::ChangeList::or_else))]
fn start(store: Rows<40>, loader: Rows<40>, key: &[u8; 32]) -> u64
    ensures { result ≡ start_of (content store.entry) (content loader.entry) (num key.now) }
{
    if let Some(v) = store.get(key) {
        return v;
    }
    loader.get(key).unwrap_or(0)
}

// Whether a row's value is its key's starting value.
fn unchanged(row: &[u8], store: Rows<40>, loader: Rows<40>) -> bool
    requires { length row.now ≡ 40 }
    ensures { result ≡ sameb (content store.entry) (content loader.entry) (row_in 40 row.now) }
{
    let v = start(store, loader, tables::rows::key_of(row));
    words::bytes::read(row, 32, 8) == v
}

// How many of the rows changed.
fn count_changed(changes: Rows<40>, store: Rows<40>, loader: Rows<40>) -> usize
    ensures { result ≡ length (changed_in changes.entry store.entry loader.entry) }
{
    let mut k = 0;
    for row in changes.bytes[..changes.count * 40].chunks_exact(40) {
        if !unchanged(row, store, loader) {
            k += 1;
        }
    }
    k
}

// Writes those of the rows that changed to the front of the output.
fn write_changed(changes: Rows<40>, store: Rows<40>, loader: Rows<40>, out: &mut [u8])
    requires { length (changed_in changes store loader) * 40 ≤ length out.old }
    ensures { out.new ≡ written (changed_in changes.entry store.entry loader.entry) out.old }
{
    let mut to = 0;
    for row in changes.bytes[..changes.count * 40].chunks_exact(40) {
        if !unchanged(row, store, loader) {
            words::bytes::copy_in(out, to, row);
            to += 40;
        }
    }
}

// The list over checked tables, if the output has room for it.
fn list(
    changes: Rows<40>,
    store: Rows<40>,
    loader: Rows<40>,
    out: &mut [u8],
) -> Result<usize, ChangeError>
    ensures answer { result ≡
        answer_of (Some (changed_in changes.entry store.entry loader.entry)) out.old }
    ensures output { out.new ≡
        list_output (Some (changed_in changes.entry store.entry loader.entry)) out.old }
{
    let k = count_changed(changes, store, loader);
    if out.len() / 40 < k {
        return Err(ChangeError::NoRoom);
    }
    write_changed(changes, store, loader, out);
    Ok(k)
}

// The counted rows, if they stand and rise.
pub(crate) fn counted(bytes: &[u8], count: usize) -> Option<Rows<'_, 40>>
    ensures { MatchOption result (counted_rows bytes.now count ≡ None)
        (λ t. (t.bytes.now ≡ bytes.now) × (t.count ≡ count)) }
{
    if count <= bytes.len() / 40 && tables::check::rising(bytes, count, 40) {
        Some(Rows { bytes, count })
    } else {
        None
    }
}

// The stored keys whose last value differs from the starting value, rising, with their last values.
// The count comes apart, as the C interface lends it.
pub fn change_list(
    changes: &[u8],
    count: usize,
    store: &[u8],
    has_loader: bool,
    loader: &[u8],
    out: &mut [u8],
) -> Result<usize, ChangeError>
    ensures answer { result ≡
        answer_of (list_of (lent changes.now count store.now has_loader loader.now)) out.old }
    ensures output { out.new ≡
        list_output (list_of (lent changes.now count store.now has_loader loader.now)) out.old }
{
    let changes = counted(changes, count).ok_or(ChangeError::BadTable)?;
    let store = Rows::check(store).ok_or(ChangeError::BadTable)?;
    let loader = Rows::check_if(has_loader, loader).ok_or(ChangeError::BadTable)?;
    list(changes, store, loader, out)
}
