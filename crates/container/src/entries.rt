// Counted lists and entries, where they stand in bytes.
ghost use Rattle.std.specs.Prelude.{◌≡◌, ◌+◌, ◌*◌, ◌-◌, ◌≤◌, leb, length, drop};
ghost use Rattle.container.specs.Reader.{counted, entry, entries};
ghost use Rattle.container.specs.Entries.{slot_bytes, list_at, entry_at, slots_of, entries_end};

// Where a list's first word stands, and how many words it has.
#[derive(Clone, Copy)]
pub struct Slots {
    pub at: usize,
    pub count: usize,
}

// The bytes of a list's words.
pub fn words_of(s: &[u8], list: Slots) -> &[u8]
    requires { list.at + list.count * 8 ≤ length s.now }
    ensures { result.now ≡ slot_bytes s.now list }
{
    words::bytes::part(s, list.at, list.count * 8)
}

// An entry's numbers, its four lists and the place after it.
#[derive(Clone, Copy)]
pub struct EntryLayout {
    pub selector: u64,
    pub offset: u64,
    pub reads: Slots,
    pub writes: Slots,
    pub keyed_reads: Slots,
    pub keyed_writes: Slots,
    pub end: usize,
}

// How many bytes stand from a place on.
pub fn left(s: &[u8], at: usize) -> usize
    ensures { result ≡ length s.now - at }
{
    s.len().saturating_sub(at)
}

// The counted list at a place.
#[tactic(auto, using(crate::specs::EntryLaws::list_laws))]
pub fn counted_at(s: &[u8], at: usize) -> Option<(Slots, usize)>
    ensures { result ≡ list_at at (counted (drop at s.now)) }
{
    if left(s, at) < 4 {
        return None;
    }
    let count = words::bytes::read(s, at, 4) as usize;
    let first = at + 4;
    if (s.len() - first) / 8 < count {
        return None;
    }
    let list = Slots { at: first, count };
    Some((list, first + count * 8))
}

// The entry at a place.
#[tactic(auto, using(crate::specs::EntryLaws::short_laws))]
pub fn entry_at(s: &[u8], at: usize) -> Option<EntryLayout>
    ensures { result ≡ entry_at at (entry (drop at s.now)) }
{
    if left(s, at) < 8 {
        return None;
    }
    let selector = words::bytes::read(s, at, 4);
    let offset = words::bytes::read(s, at + 4, 4);
    let (reads, w) = counted_at(s, at + 8)?;
    let (writes, kr) = counted_at(s, w)?;
    let (keyed_reads, kw) = counted_at(s, kr)?;
    let (keyed_writes, end) = counted_at(s, kw)?;
    Some(EntryLayout {
        selector,
        offset,
        reads,
        writes,
        keyed_reads,
        keyed_writes,
        end,
    })
}

// Whether an entry has at most 4096 slots in all.
pub fn slots_within_limit(e: EntryLayout) -> bool
    ensures { result ≡ leb (slots_of e) 4096 }
{
    let r = e.reads.count;
    let w = e.writes.count;
    let kr = e.keyed_reads.count;
    let kw = e.keyed_writes.count;
    r.saturating_add(w).saturating_add(kr).saturating_add(kw) <= 4096
}

// The place after n entries that stand from a place on.
#[tactic(auto, using(crate::specs::EntriesLaws::end_laws))]
pub fn entries_end(s: &[u8], first: usize, n: usize) -> Option<usize>
    ensures { result ≡ entries_end first (entries n (drop first s.now)) }
{
    let mut at = first;
    for _i in 0..n {
        at = entry_at(s, at)?.end;
    }
    Some(at)
}
