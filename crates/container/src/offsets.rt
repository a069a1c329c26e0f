// Where an entry stands, and where its code begins.
ghost use Rattle.std.specs.Prelude.{◌≡◌, List, ℕ, drop};
ghost use Rattle.container.specs.Container.{Entry};
ghost use Rattle.container.specs.Reader.{read, entries, read_of};
ghost use Rattle.container.specs.Entries.{found_in};
ghost use Rattle.container.specs.Offsets.{offset_of};
ghost use Rattle.container.specs.Answers.{offset_error};
ghost use Rattle.container.specs.declared.offsets.OffsetError.TheVariants.{Unreadable};

use super::entries::{EntryLayout, entry_at};
use super::reader::{ReadError, read};
use words::refusal::Refusal;

// Why there is no offset.
#[derive(Clone, Copy, Debug, PartialEq, Eq)]
pub enum OffsetError {
    UnknownSelector,
    Unreadable(ReadError),
}

impl From<ReadError> for OffsetError {
    ghost from_gives = { λ e r. r ≡ Unreadable e };

    fn from(e: ReadError) -> OffsetError {
        OffsetError::Unreadable(e)
    }
}

impl From<OffsetError> for Refusal {
    ghost from_gives = { λ e r. r ≡ offset_error e };

    fn from(e: OffsetError) -> Refusal {
        match e {
            OffsetError::UnknownSelector => Refusal::numbered(9),
            OffsetError::Unreadable(e) => Refusal::from(e),
        }
    }
}

// The first entry with a selector, among n that were read from a place on.
pub fn find(s: &[u8], first: usize, n: usize, selector: u64) -> Option<EntryLayout>
    ensures { (es : List Entry) (t : List ℕ) → entries n (drop first s.now) ≡ read es t → result ≡ found_in selector first es }
{
    let mut at = first;
    for _i in 0..n {
        let e = entry_at(s, at)?;
        if e.selector == selector {
            return Some(e);
        }
        at = e.end;
    }
    None
}

// The offset of the first entry with a selector.
pub fn entry_offset(s: &[u8], selector: u64) -> Result<u64, OffsetError>
    ensures { result ≡ offset_of selector (read_of s.now) }
{
    let l = read(s)?;
    let e = find(s, l.entries_at, l.entries, selector).ok_or(OffsetError::UnknownSelector)?;
    Ok(e.offset)
}
