// Places marked in a map of bits.
ghost use Rattle.std.specs.Prelude.{◌≡◌, ◌%◌, ◌^◌};
ghost use Rattle.starts.specs.Marks.{marked, mark_in};

// A place's bit in its byte.
fn bit_of(place: usize) -> u8
    ensures { result ≡ 2 ^ (place % 8) }
{
    1 << (place % 8)
}

// Marks a place; one past the map is left out.
#[tactic(auto, unfolding(crate::specs::Marks::mark_in))]
pub fn mark(map: &mut [u8], place: usize)
    ensures { map.new ≡ mark_in map.old place }
{
    let k = place / 8;
    if k < map.len() {
        map[k] = map[k] | bit_of(place);
    }
}

// Whether a place is marked.
#[tactic(auto, unfolding(crate::specs::Marks::marked))]
pub fn is_start(map: &[u8], place: u64) -> bool
    ensures { result ≡ marked map.now place }
{
    let k = (place / 8) as usize;
    if map.len() <= k {
        return false;
    }
    (map[k] >> (place % 8)) % 2 == 1
}
