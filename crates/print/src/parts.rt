// Parts of what a program has read.
ghost use Rattle.std.specs.Prelude.{◌≡◌, ◌-◌, length, take, drop, nat_lt, nat_le, if◌then◌else◌, ◌||◌};

// The bytes between two places; all where there are none such.
pub fn between(s: &[u8], from: usize, to: usize) -> &[u8]
    ensures { result.now ≡ (if nat_lt to from || nat_lt (length s.now) to then s.now else take (to - from) (drop from s.now)) }
{
    s.get(from..to).unwrap_or(s)
}

// The first n bytes; all where there are fewer. Here and in `front` and `bytes` n is what is asked for, not how many there are.
pub fn first(s: &[u8], n: usize) -> &[u8]
    ensures { result.now ≡ (if nat_lt (length s.now) n then s.now else take n s.now) }
{
    s.get(..n).unwrap_or(s)
}
