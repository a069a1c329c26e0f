// The one entry with a selector.
ghost use Rattle.std.specs.Prelude.{◌≡◌, List, ℕ, drop};
ghost use Rattle.container.specs.Container.{Entry};
ghost use Rattle.container.specs.Reader.{read, entries};
ghost use Rattle.opening.specs.Parts.{SoughtTold};
ghost use Rattle.opening.specs.NotOne.{not_one_fault};

use container::entries::EntryLayout;
use state::fault::Fault;

// Why a selector is no one entry's.
#[derive(Clone, Copy, Debug, PartialEq, Eq)]
pub enum NotOne {
    Missing,
    Twice,
}

impl From<NotOne> for Fault {
    ghost from_gives = { λ e f. f ≡ not_one_fault e };

    fn from(e: NotOne) -> Fault {
        match e {
            NotOne::Missing => Fault::UnknownSelector,
            NotOne::Twice => Fault::Malformed,
        }
    }
}

// The entry with a selector, among n that were read from a place on, unless a second one has it.
pub fn unique_entry(s: &[u8], first: usize, n: usize, selector: u64) -> Result<EntryLayout, NotOne>
    ensures { (es : List Entry) (t : List ℕ) → entries n (drop first s.now) ≡ read es t → SoughtTold s.now selector es result }
{
    let mut at = first;
    for more in (0..n).rev() {
        let Some(e) = container::entries::entry_at(s, at) else {
            return Err(NotOne::Missing);
        };
        at = e.end;
        if e.selector == selector {
            return match container::offsets::find(s, at, more, selector) {
                Some(_) => Err(NotOne::Twice),
                None => Ok(e),
            };
        }
    }
    Err(NotOne::Missing)
}
