// Bytes in hexadecimal.
ghost use Rattle.std.specs.Prelude.{◌≡◌, ◌+◌, ◌*◌, ◌≤◌, ◌<◌, length};
ghost use Rattle.words.specs.Laid.{Laid};
ghost use Rattle.text.specs.Hex.{digit_of, hex_of};

#[tactic(auto, unfolding(crate::specs::Hex::digit_of))]
fn digit(d: u8) -> u8
    requires { d < 16 }
    ensures { result ≡ digit_of d }
{
    if d < 10 { b'0' + d } else { b'a' - 10 + d }
}

// Bytes in hexadecimal at a place, and where they end.
#[tactic(auto, using(crate::specs::HexLaws::hex_turn, crate::specs::HexLaws::length_hex))]
pub fn hex(out: &mut [u8], at: usize, s: &[u8]) -> usize
    requires { at + length s.now * 2 ≤ length out.old }
    ensures { Laid out.old at (hex_of s.now) out.new result }
{
    for (i, b) in s.iter().enumerate() {
        let to = at + i * 2;
        out[to] = digit(b / 16);
        out[to + 1] = digit(b % 16);
    }
    at + s.len() * 2
}
