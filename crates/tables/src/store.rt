// Putting a row into sorted rows, at its key's place.
// The count stays beside the bytes that are written: a run keeps the counts of all its tables in one value (`keys::counts::Counts`).
ghost use Rattle.std.specs.Prelude.{◌≡◌, ◌+◌, ◌-◌, ◌≤◌, length, drop};
ghost use Rattle.std.proofs.Math.Seq.{paste};
ghost use Rattle.words.specs.Bytes.{num};
ghost use Rattle.tables.specs.Rows.{row_in};
ghost use Rattle.tables.specs.Table.{Table, Inserted};

use crate::rows::{find, key_of};

// Moves the bytes from `from` up to `to` up by `by` places, the last first.
// A loop, and no range: `copy_within`, and a walk of a range from its end, come to the C library's memmove, which the archive for
// C would then need from outside.
fn shift_up(t: &mut [u8], from: usize, to: usize, by: usize)
    requires { (from ≤ to) × (to + by ≤ length t.old) }
    ensures { t.new ≡ paste t.old (from + by) (drop from t.old) (to - from) }
{
    let mut i = to;
    while from < i {
        i -= 1;
        let x = t[i];
        t[i + by] = x;
    }
}

// Puts a row into the first n rows of its width.
pub fn insert(t: &mut [u8], n: usize, row: &[u8]) -> Option<usize>
    requires { Table (length row.now) n t.old }
    ensures { Inserted (length row.now) n (row_in (length row.now) row.now) t.old t.new result }
{
    let w = row.len();
    match find(t, n, w, key_of(row)) {
        Ok(i) => {
            words::bytes::copy_in(t, i * w, row);
            Some(n)
        }
        Err(i) => {
            let from = i * w;
            let to = n * w;
            if t.len() - to < w {
                return None;
            }
            shift_up(t, from, to, w);
            words::bytes::copy_in(t, from, row);
            Some(n + 1)
        }
    }
}

// Puts a value at a key, in rows of 40 bytes.
// Not one function with `add`: this one makes a row, and there the key is the row.
pub fn put(t: &mut [u8], n: usize, key: &[u8; 32], v: u64) -> Option<usize>
    requires { Table 40 n t.old }
    ensures { Inserted 40 n (record { key = num key.entry.now; value = v }) t.old t.new result }
{
    let mut row = [0u8; 40];
    words::bytes::copy_in(&mut row, 0, key);
    words::bytes::write(&mut row, 32, 8, v);
    insert(t, n, &row)
}

// Puts a key in, in rows of 32 bytes.
pub fn add(t: &mut [u8], n: usize, key: &[u8; 32]) -> Option<usize>
    requires { Table 32 n t.old }
    ensures { Inserted 32 n (record { key = num key.entry.now; value = 0 }) t.old t.new result }
{
    insert(t, n, key)
}
