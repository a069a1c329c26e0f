// The entries of a container, checked in order.
ghost use Rattle.std.specs.Prelude.{◌≡◌, List, [], ℕ, ◌≤◌, drop};
ghost use Rattle.container.specs.Container.{Entry};
ghost use Rattle.container.specs.Reader.{read, entries};
ghost use Rattle.container_verify.specs.Verify.{entries_refusal};
ghost use Rattle.starts.specs.Marks.{Holds};
ghost use Rattle.container_verify.specs.Checks.{as_check, Answers};

use super::verify::{MAX_ENTRIES, VerifyError};
use container::entries::{EntryLayout, entry_at};

// An entry after those whose selectors were seen: a new selector, an offset that is a start, few slots.
fn check_entry(map: &[u8], seen: &[u64], e: EntryLayout) -> Result<(), VerifyError>
    ensures { Answers map.now seen.now e result }
{
    let selector = e.selector;
    if seen.contains(&selector) {
        return Err(VerifyError::DuplicateSelector(selector));
    }
    if !starts::marks::is_start(map, e.offset) {
        return Err(VerifyError::EntryOffsetMisaligned(selector));
    }
    if !container::entries::slots_within_limit(e) {
        return Err(VerifyError::AccessListTooLarge(selector));
    }
    Ok(())
}

// The n entries from a place on, against a map of the starts.
pub(crate) fn check_entries(s: &[u8], map: &[u8], first: usize, n: usize) -> Result<(), VerifyError>
    requires { n ≤ 256 }
    ensures { (es : List Entry) (t starts : List ℕ) → entries n (drop first s.now) ≡ read es t →
        Holds map.now starts → result ≡ as_check (entries_refusal [] starts es) }
{
    let mut seen = [0u64; MAX_ENTRIES];
    let mut at = first;
    for i in 0..n {
        let Some(e) = entry_at(s, at) else {
            return Ok(());
        };
        check_entry(map, &seen[..i], e)?;
        seen[i] = e.selector;
        at = e.end;
    }
    Ok(())
}
