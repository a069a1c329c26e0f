// What a container must be to be run.
ghost use Rattle.std.specs.Prelude.{◌≡◌, ◌≤◌, length};
ghost use Rattle.container.specs.Container.{Container};
ghost use Rattle.container.specs.Reader.{read_of};
ghost use Rattle.starts.specs.Walk.{walk_of};
ghost use Rattle.container_verify.specs.Verify.{scan_refusal, code_refusal, verify_of, verified_of};
ghost use Rattle.container_verify.specs.Checks.{as_check};
ghost use Rattle.container.specs.LaidOut.{LaidOut};
ghost use Rattle.container_verify.specs.Answers.{verify_error, invalid_refusal};
ghost use Rattle.container_verify.specs.declared.verify.Invalid.TheVariants.{Unreadable, Refused};

use super::entry_checks::check_entries;
use super::targets::targets;
use container::reader::{Layout, ReadError};
use isa::codec::DecodeError;
use starts::scan_answers::ScanError;
use words::refusal::Refusal;

#[derive(Clone, Copy, Debug, PartialEq, Eq)]
pub enum VerifyError {
    CodeTooLarge,
    ConstsTooLarge,
    EntriesTooLarge,
    UndecodableCode(usize, DecodeError),
    ConstIndexOutOfRange(u64),
    MisalignedTarget(u64),
    EntryOffsetMisaligned(u64),
    DuplicateSelector(u64),
    AccessListTooLarge(u64),
}

impl From<ScanError> for VerifyError {
    ghost from_gives = { λ e r. r ≡ scan_refusal e };

    fn from(e: ScanError) -> VerifyError {
        match e {
            ScanError::Undecodable(place, e) => VerifyError::UndecodableCode(place, e),
            ScanError::BadConst(k) => VerifyError::ConstIndexOutOfRange(k),
        }
    }
}

impl From<VerifyError> for Refusal {
    ghost from_gives = { λ e r. r ≡ verify_error e };

    fn from(e: VerifyError) -> Refusal {
        match e {
            VerifyError::CodeTooLarge => Refusal::numbered(21),
            VerifyError::ConstsTooLarge => Refusal::numbered(22),
            VerifyError::EntriesTooLarge => Refusal::numbered(23),
            VerifyError::UndecodableCode(place, _) => Refusal {
                number: 24,
                argument: place as u64,
            },
            VerifyError::ConstIndexOutOfRange(index) => Refusal {
                number: 25,
                argument: index,
            },
            VerifyError::MisalignedTarget(target) => Refusal {
                number: 26,
                argument: target,
            },
            VerifyError::EntryOffsetMisaligned(selector) => Refusal {
                number: 27,
                argument: selector,
            },
            VerifyError::DuplicateSelector(selector) => Refusal {
                number: 28,
                argument: selector,
            },
            VerifyError::AccessListTooLarge(selector) => Refusal {
                number: 29,
                argument: selector,
            },
        }
    }
}

// Why bytes are no valid container.
#[derive(Clone, Copy, Debug, PartialEq, Eq)]
pub enum Invalid {
    Unreadable(ReadError),
    Refused(VerifyError),
}

impl From<ReadError> for Invalid {
    ghost from_gives = { λ e r. r ≡ Unreadable e };

    fn from(e: ReadError) -> Invalid {
        Invalid::Unreadable(e)
    }
}

impl From<VerifyError> for Invalid {
    ghost from_gives = { λ e r. r ≡ Refused e };

    fn from(e: VerifyError) -> Invalid {
        Invalid::Refused(e)
    }
}

impl From<Invalid> for Refusal {
    ghost from_gives = { λ e r. r ≡ invalid_refusal e };

    fn from(e: Invalid) -> Refusal {
        match e {
            Invalid::Unreadable(e) => Refusal::from(e),
            Invalid::Refused(e) => Refusal::from(e),
        }
    }
}

// The limits of document 01, Container.
const MAX_CODE: usize = 65536;

const MAX_CONSTS: usize = 4096;

pub(crate) const MAX_ENTRIES: usize = 256;

// The code, whose starts a map of 65536 bits holds; then targets and entries against the map.
fn check_code(s: &[u8], code: &[u8], l: Layout) -> Result<(), VerifyError>
    requires { l.entries ≤ 256 }
    ensures { (c : Container) → LaidOut s.now code.now l c → length c.code ≤ 65536 →
        result ≡ as_check (code_refusal (walk_of c.code (length c.consts)).end (walk_of c.code (length c.consts)).starts c) }
{
    let mut map = [0u8; MAX_CODE / 8];
    starts::scan::scan(code, l.consts as u64, &mut map)?;
    targets(code, &map).map_err(VerifyError::MisalignedTarget)?;
    check_entries(s, &map, l.entries_at, l.entries)
}

// Sizes first.
fn check_all(s: &[u8], code: &[u8], l: Layout) -> Result<(), VerifyError>
    ensures { (c : Container) → LaidOut s.now code.now l c → result ≡ as_check (verify_of c) }
{
    if l.code > MAX_CODE {
        return Err(VerifyError::CodeTooLarge);
    }
    if l.consts > MAX_CONSTS {
        return Err(VerifyError::ConstsTooLarge);
    }
    if l.entries > MAX_ENTRIES {
        return Err(VerifyError::EntriesTooLarge);
    }
    check_code(s, code, l)
}

// A container's layout, or why it is not valid.
pub fn verify(s: &[u8]) -> Result<Layout, Invalid>
    ensures { result ≡ verified_of (read_of s.now) }
{
    let l = container::reader::read(s)?;
    check_all(s, &s[l.code_at..l.code_at + l.code], l)?;
    Ok(l)
}
