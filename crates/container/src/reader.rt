// Reading a container where it stands in bytes.
ghost use Rattle.std.specs.Prelude.{◌≡◌, drop};
ghost use Rattle.container.specs.Reader.{container, whole, read_of, reading_of};
ghost use Rattle.container.specs.Answers.{read_error};

use super::entries::{counted_at, entries_end, left};
use words::refusal::Refusal;

// QVM1
pub const TAG: u64 = 0x5156_4D31;

// How many code bytes, constants and entries, and where each part begins.
#[derive(Clone, Copy)]
pub struct Layout {
    pub code: usize,
    pub consts: usize,
    pub entries: usize,
    pub code_at: usize,
    pub consts_at: usize,
    pub entries_at: usize,
}

#[derive(Clone, Copy, Debug, PartialEq, Eq)]
pub enum ReadError {
    BadTag,
    Short,
    Trailing,
}

impl From<ReadError> for Refusal {
    ghost from_gives = { λ e r. r ≡ read_error e };

    fn from(e: ReadError) -> Refusal {
        match e {
            ReadError::BadTag => Refusal::numbered(41),
            ReadError::Short => Refusal::numbered(42),
            ReadError::Trailing => Refusal::numbered(43),
        }
    }
}

// What stands after the tag.
#[tactic(auto, using(crate::specs::ReaderLaws::body_laws))]
fn body(s: &[u8]) -> Result<Layout, ReadError>
    ensures { result ≡ reading_of (whole (container (drop 4 s.now))) }
{
    if s.len() < 8 {
        return Err(ReadError::Short);
    }
    let code = words::bytes::read(s, 4, 4) as usize;
    if s.len() - 8 < code {
        return Err(ReadError::Short);
    }
    let (consts, next) = counted_at(s, 8 + code).ok_or(ReadError::Short)?;
    if left(s, next) < 4 {
        return Err(ReadError::Short);
    }
    let entries = words::bytes::read(s, next, 4) as usize;
    let entries_at = next + 4;
    let end = entries_end(s, entries_at, entries).ok_or(ReadError::Short)?;
    if end < s.len() {
        return Err(ReadError::Trailing);
    }
    Ok(Layout {
        code,
        consts: consts.count,
        entries,
        code_at: 8,
        consts_at: consts.at,
        entries_at,
    })
}

// How a container stands in bytes, or why there is none.
#[tactic(auto, using(crate::specs::ReaderLaws::tag_laws))]
pub fn read(s: &[u8]) -> Result<Layout, ReadError>
    ensures { result ≡ reading_of (read_of s.now) }
{
    if s.len() < 4 {
        return Err(ReadError::Short);
    }
    if words::bytes::read(s, 0, 4) != TAG {
        return Err(ReadError::BadTag);
    }
    body(s)
}
