// Whether a row that may have to go in fits, and putting it in.
ghost use Rattle.std.specs.Prelude.{◌≡◌, true, ℕ};
ghost use Rattle.words.specs.Bytes.{num};
ghost use Rattle.tables.specs.Table.{Table};
ghost use Rattle.keys.specs.Values.{row};
ghost use Rattle.keys.specs.Sound.{PutIf, holds};

use tables::rows::Rows;

// Whether a key has room in its table, if it is to go in.
pub(crate) fn room<const W: usize>(t: Rows<W>, key: &[u8; 32], when: bool) -> bool
    ensures { (v : ℕ) → result ≡ holds W t.entry.count when (row (num key.now) v) t.entry.bytes.now }
{
    !when || W <= t.bytes.len() - t.count * W || t.has(key)
}

// Puts a value at a key that has room, if it is to go in.
// Not one function with `add_if`: rows of two sizes, and a function of `tables` for each.
pub(crate) fn put_if(t: &mut [u8], n: usize, key: &[u8; 32], v: u64, when: bool) -> usize
    requires { Table 40 n t.old × (holds 40 n when (row (num key.now) v) t.old ≡ true) }
    ensures { PutIf 40 n result when (row (num key.now) v) t.old t.new }
{
    if when {
        tables::store::put(t, n, key, v).unwrap_or(n)
    } else {
        n
    }
}

// Puts a key in that has room, if it is to go in.
pub(crate) fn add_if(t: &mut [u8], n: usize, key: &[u8; 32], when: bool) -> usize
    requires { Table 32 n t.old × (holds 32 n when (row (num key.now) 0) t.old ≡ true) }
    ensures { PutIf 32 n result when (row (num key.now) 0) t.old t.new }
{
    if when {
        tables::store::add(t, n, key).unwrap_or(n)
    } else {
        n
    }
}
