// The words of an answer, written to the front of a lent slice.
ghost use Rattle.std.specs.Prelude.{◌≡◌, ◌≤◌, ◌<◌, length};
ghost use Rattle.gateway.specs.Boundary.{answered, answered_of};
ghost use Rattle.gateway.specs.Words.{pair_words};

use words::refusal::Refusal;

// A refusal in the words of an answer of two.
pub(crate) fn pair_words(why: Refusal) -> [u64; 2]
    ensures { result ≡ pair_words why }
{
    [why.number, why.argument]
}

// Writes an answer's words where they fit, and gives the first of them; else 48.
pub(crate) fn put(t: &mut [u64], words: &[u64]) -> u32
    requires { 0 < length words.now }
    ensures { answered result t.new ≡ answered_of words.now t.old }
{
    let n = words.len();
    if t.len() < n {
        return 48;
    }
    t[..n].copy_from_slice(words);
    (words[0] % 0x1_0000_0000) as u32
}
