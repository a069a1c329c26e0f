// The targets of the code, tested against a map of its starts.
ghost use Rattle.std.specs.Prelude.{◌≡◌, List, ℕ, length};
ghost use Rattle.container_verify.specs.Targets.{bad_target, target_stands, stands_of};
ghost use Rattle.starts.specs.Marks.{marked, Holds};

use isa::flow::Refers;

// A target at which no instruction starts. `index_of` (starts) differs in its test.
#[tactic(auto, unfolding(crate::specs::Targets::target_stands))]
fn target_of(r: Refers, map: &[u8]) -> Result<(), u64>
    ensures { result ≡ target_stands r (marked map.now) }
{
    match r {
        Refers::Target(t) if !starts::marks::is_start(map, t) => Err(t),
        _ => Ok(()),
    }
}

// The first target, in code order, that is not marked.
pub fn targets(code: &[u8], map: &[u8]) -> Result<(), u64>
    ensures { (starts : List ℕ) → Holds map.now starts →
        result ≡ stands_of (bad_target (length code.now) code.now starts 0) }
{
    let mut place = 0;
    // No plainer: a turn goes as far as its instruction, which no range counts.
    while place < code.len() {
        let Ok((i, n)) = isa::codec::decode(code, place) else {
            return Ok(());
        };
        target_of(i.refers(), map)?;
        place += n;
    }
    Ok(())
}
