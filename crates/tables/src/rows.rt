// Sorted rows at the front of lent bytes. A row is w bytes: a key of 32, and the value after it.
ghost use Rattle.std.specs.Prelude.{◌≡◌, ◌≤◌, length, take, is_some};
ghost use Rattle.words.specs.Bytes.{num};
ghost use Rattle.tables.specs.Rows as listed;
ghost use Rattle.tables.specs.Rows.{rows, lookup};
ghost use Rattle.tables.specs.Table.{Table};
ghost use Rattle.tables.specs.TableProps.{table_props};

use std::cmp::Ordering;

// Bytes that begin with a table of so many rows.
#[derive(Clone, Copy)]
pub struct Rows<'a, const W: usize> {
    pub bytes: &'a [u8],
    pub count: usize,
    pub ghost table: { Table W count bytes.now } by { Prim.hlevel table_props },
}

// The key that a row begins with.
pub fn key_of(row: &[u8]) -> &[u8; 32]
    requires { 32 ≤ length row.now }
    ensures { result.now ≡ take 32 row.now }
{
    row.first_chunk().unwrap()
}

// Where a key stands in the first n rows of w bytes, or would stand.
// A loop: `binary_search_by` goes over the elements of a slice, and a row is none.
pub(crate) fn find(t: &[u8], n: usize, w: usize, key: &[u8]) -> Result<usize, usize>
    requires { Table w n t.now × (length key.now ≡ 32) }
    ensures { result ≡ listed.find (num key.now) (rows w n t.now) }
{
    let mut lo = 0;
    let mut hi = n;
    while lo < hi {
        let mid = lo + (hi - lo) / 2;
        let at = mid * w;
        match crate::order::compare(&t[at..at + 32], key) {
            Ordering::Less => lo = mid + 1,
            Ordering::Equal => return Ok(mid),
            Ordering::Greater => hi = mid,
        }
    }
    Err(lo)
}

// Whether a key stands in the first n rows of w bytes.
pub fn has(t: &[u8], n: usize, w: usize, key: &[u8]) -> bool
    requires { Table w n t.now × (length key.now ≡ 32) }
    ensures { result ≡ is_some (lookup (num key.now) (rows w n t.now)) }
{
    find(t, n, w, key).is_ok()
}

impl<'a, const W: usize> Rows<'a, W> {
    // Whether a key stands there.
    pub fn has(self, key: &[u8; 32]) -> bool
        ensures { result ≡ is_some (lookup (num key.now) (rows W self.entry.count self.entry.bytes.now)) }
    {
        has(self.bytes, self.count, W, key)
    }
}

impl<'a> Rows<'a, 40> {
    // The value at a key.
    pub fn get(self, key: &[u8; 32]) -> Option<u64>
        ensures { result ≡ lookup (num key.now) (rows 40 self.entry.count self.entry.bytes.now) }
    {
        let i = find(self.bytes, self.count, 40, key).ok()?;
        Some(words::bytes::read(self.bytes, i * 40 + 32, 8))
    }
}
