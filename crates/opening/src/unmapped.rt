// Instruction starts, without a map of them.
ghost use Rattle.std.specs.Prelude.{◌≡◌};
ghost use Rattle.words.specs.Lists.{member};
ghost use Rattle.starts.specs.Starts.{starts_of};

// Whether an instruction starts at a place, reading the code from its first byte on.
pub fn is_start(code: &[u8], offset: u64) -> bool
    ensures { result ≡ member offset (starts_of code.now) }
{
    let mut place = 0;
    // No plainer: a turn goes as far as its instruction, which no range counts.
    while place < code.len() {
        let Ok((_, n)) = isa::codec::decode(code, place) else {
            return false;
        };
        if place as u64 == offset {
            return true;
        }
        place += n;
    }
    false
}
