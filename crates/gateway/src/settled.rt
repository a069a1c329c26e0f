// What a settled call changed.
ghost use Rattle.std.specs.Prelude.{◌≡◌};
ghost use Rattle.changes.specs.ChangeList.{list_of};
ghost use Rattle.gateway.specs.Boundary.{told};
ghost use Rattle.gateway.specs.Words.{list_words};
ghost use Rattle.gateway.specs.Gateway.{changes_of, is_present};

use super::answer::pair_words;
use changes::ChangeError;
use words::refusal::Refusal;

#[tactic(auto, unfolding(crate::specs::Words::list_words))]
fn list_words(l: Result<usize, ChangeError>) -> [u64; 2]
    ensures { result ≡ list_words l }
{
    match l {
        Ok(n) => [0, n as u64],
        Err(e) => pair_words(Refusal::from(e)),
    }
}

// The stored keys whose last value differs from the starting value.
#[unsafe(no_mangle)]
pub extern "C" fn qvm_change_list(
    changes: &[u8],
    count: u64,
    store: &[u8],
    has_loader: u8,
    loader: &[u8],
    out: &mut [u8],
    answer: &mut [u64],
) -> u32
    ensures { told result answer.new out.new ≡
        changes_of (list_of
        (record {
          changes = changes.entry.now;
          count = count;
          store = store.now;
          has_loader = is_present has_loader;
          loader = loader.now;
        })) out.old answer.old }
{
    if answer.len() < 2 {
        return 48;
    }
    let l = changes::change_list(changes, count as usize, store, has_loader != 0, loader, out);
    let words = list_words(l);
    super::answer::put(answer, &words)
}
