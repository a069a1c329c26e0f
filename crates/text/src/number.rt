// A number read from decimal digits.
ghost use Rattle.std.specs.Prelude.{◌≡◌};
ghost use Rattle.text.specs.Number.{with_digit, parsed_of};

// A number and a digit behind it.
#[tactic(auto, unfolding(crate::specs::Number::with_digit))]
fn with_digit(n: u64, x: u8) -> Option<u64>
    ensures { result ≡ with_digit n x }
{
    if !x.is_ascii_digit() {
        return None;
    }
    n.checked_mul(10)?.checked_add(u64::from(x - b'0'))
}

// The number that decimal digits write, where it is below 2^64.
#[tactic(auto, using(crate::specs::NumberLaws::parsed_none, crate::specs::NumberLaws::parsed_start, crate::specs::NumberLaws::parsed_turn, crate::specs::NumberLaws::parsed_bad, crate::specs::NumberLaws::parsed_end))]
pub fn parse(s: &[u8]) -> Option<u64>
    ensures { result ≡ parsed_of s.now }
{
    if s.is_empty() {
        return None;
    }
    let mut n = 0;
    for &x in s {
        n = with_digit(n, x)?;
    }
    Some(n)
}
