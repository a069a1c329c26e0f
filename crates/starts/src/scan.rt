// Reading the code from place to place: its instruction starts, and the constants that instructions name.
ghost use Rattle.std.specs.Prelude.{◌≡◌};
ghost use Rattle.starts.specs.Walk.{walk_of, index_of};
ghost use Rattle.starts.specs.Marks.{Marks};

use super::scan_answers::ScanError;
use isa::flow::Refers;

// A constant's index that no constant has. `target_of` (container_verify) differs in its test.
#[tactic(auto, unfolding(crate::specs::Walk::index_of))]
fn index_of(r: Refers, consts: u64) -> Result<(), u64>
    ensures { result ≡ index_of r consts }
{
    match r {
        Refers::Const(k) => {
            if k < consts {
                return Ok(());
            }
            Err(k)
        }
        Refers::Target(_) => Ok(()),
        Refers::Nothing => Ok(()),
    }
}

// Reads the code from 0 on and marks each start; stops where no instruction stands or a constant's index is bad.
pub fn scan(code: &[u8], consts: u64, map: &mut [u8]) -> Result<(), ScanError>
    ensures answer { result ≡ (walk_of code.now consts).end }
    ensures map { Marks map.old (walk_of code.now consts).starts map.new }
{
    let mut place = 0;
    // No plainer: a turn goes as far as its instruction, which no range counts.
    while place < code.len() {
        let (i, n) = match isa::codec::decode(code, place) {
            Ok(decoded) => decoded,
            Err(e) => return Err(ScanError::Undecodable(place, e)),
        };
        super::marks::mark(map, place);
        if let Err(k) = index_of(i.refers(), consts) {
            return Err(ScanError::BadConst(k));
        }
        place += n;
    }
    Ok(())
}
