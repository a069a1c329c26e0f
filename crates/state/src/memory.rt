// Memory, a lent slice: what lies outside it is judged by its own length.
ghost use Rattle.std.specs.Prelude.{◌≡◌, true, false, length, take, drop, MatchOption};
ghost use Rattle.state.specs.Memory.{inside, region_of, load_of, stored_at, written_at};

pub fn mem_region(mem: &[u8], offset: u64, len: u64) -> Option<(usize, usize)>
    ensures { result ≡ region_of (length mem.now) offset len }
{
    let size = mem.len() as u64;
    if size < len {
        return None;
    }
    if size - len < offset {
        return None;
    }
    let end = offset + len;
    Some((offset as usize, end as usize))
}

// The 32 bytes of a key at a place.
pub fn mem_key(mem: &[u8], offset: u64) -> Option<&[u8; 32]>
    ensures { MatchOption result (inside (length mem.now) offset 32 ≡ false)
        (λ key. (inside (length mem.now) offset 32 ≡ true) × (key.now ≡ take 32 (drop offset mem.now))) }
{
    mem.get(offset as usize..)?.first_chunk()
}

pub fn mem_load(mem: &[u8], offset: u64) -> Option<u64>
    ensures { result ≡ load_of mem.now offset }
{
    let (start, _) = mem_region(mem, offset, 8)?;
    Some(words::bytes::read(mem, start, 8))
}

pub fn mem_store(mem: &mut [u8], offset: u64, v: u64) -> bool
    ensures answer { result ≡ inside (length mem.old) offset 8 }
    ensures contents { mem.new ≡ stored_at mem.old offset v }
{
    let Some((start, _)) = mem_region(mem, offset, 8) else {
        return false;
    };
    words::bytes::write(mem, start, 8, v);
    true
}

pub fn mem_write(mem: &mut [u8], offset: u64, bytes: &[u8]) -> bool
    ensures answer { result ≡ inside (length mem.old) offset (length bytes.now) }
    ensures contents { mem.new ≡ written_at mem.old offset bytes.now }
{
    let Some((start, _)) = mem_region(mem, offset, bytes.len() as u64) else {
        return false;
    };
    words::bytes::copy_in(mem, start, bytes);
    true
}
