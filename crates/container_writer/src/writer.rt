// Writing a container's canonical bytes: the list of entries is checked whole, then the room, then everything is written in order.
ghost use Rattle.std.specs.Prelude.{◌≡◌, true, ◌+◌, ◌≤◌, length, take, drop, is_some};
ghost use Rattle.container.specs.Canonical.{word_bytes, counted_bytes, entry_bytes, entries_bytes, canonical};
ghost use Rattle.container_writer.specs.Writer.{all_short, slots_in, begins_entry, entry_in, entries_in, listed, to_write, written_of, writer_output};
ghost use Rattle.words.specs.Laid.{Laid};
ghost use Rattle.container_writer.specs.WriterParts.{BeginsEntry, or_empty, container_of};
ghost use Rattle.container_writer.specs.Answers.{write_error};

use container::reader::TAG;
use words::laid::{put_bytes, put_number};
use words::refusal::Refusal;

// Why nothing was written.
#[derive(Clone, Copy, Debug, PartialEq, Eq)]
pub enum WriteError {
    BadList,
    NoRoom,
}

impl From<WriteError> for Refusal {
    ghost from_gives = { λ e r. r ≡ write_error e };

    fn from(e: WriteError) -> Refusal {
        match e {
            WriteError::BadList => Refusal::numbered(49),
            WriteError::NoRoom => Refusal::numbered(48),
        }
    }
}

// The first number that four bytes do not hold.
const FOUR_BYTES: u64 = 0x1_0000_0000;

// Whether every number is within four bytes.
#[tactic(auto, unfolding(crate::specs::Writer::all_short))]
fn all_short(list: &[u64]) -> bool
    ensures { result ≡ all_short list.now }
{
    list.iter().all(|&x| x < FOUR_BYTES)
}

// How many slots the entry declares that the list begins with.
#[tactic(auto, using(crate::specs::WriterLaws::six_short), unfolding(crate::specs::Writer::slots_in))]
fn slots(list: &[u64]) -> usize
    requires { (6 ≤ length list.now) × (all_short (take 6 list.now) ≡ true) }
    ensures { result ≡ slots_in list.now }
{
    list[2] as usize + list[3] as usize + list[4] as usize + list[5] as usize
}

// Whether the list begins with an entry.
#[tactic(auto, using(crate::specs::WriterLaws::begins_laws))]
fn begins_entry(list: &[u64]) -> bool
    ensures { result ≡ begins_entry list.now }
{
    list.len() >= 6 && all_short(&list[..6]) && 6 + slots(list) <= list.len()
}

// Whether the list is as many entries as it says, and nothing after them.
#[tactic(auto, using(crate::specs::WriterLaws::list_laws))]
fn is_list(list: &[u64]) -> bool
    ensures { result ≡ is_some (listed list.now) }
{
    let Some((&n, mut rest)) = list.split_first() else {
        return false;
    };
    if n >= FOUR_BYTES {
        return false;
    }
    for _i in 0..n {
        if !begins_entry(rest) {
            return false;
        }
        rest = &rest[6 + slots(rest)..];
    }
    rest.is_empty()
}

// The words' bytes at a place, and where they end; so do the writers below.
fn put_words(out: &mut [u8], at: usize, list: &[u64]) -> usize
    requires { at + length (word_bytes list.now) ≤ length out.old }
    ensures { Laid out.old at (word_bytes list.now) out.new result }
{
    let mut end = at;
    for &x in list {
        end = put_number(out, end, 8, x);
    }
    end
}

// How many words, then the words.
fn put_counted(out: &mut [u8], at: usize, list: &[u64]) -> usize
    requires { at + length (counted_bytes list.now) ≤ length out.old }
    ensures { Laid out.old at (counted_bytes list.now) out.new result }
{
    let end = put_number(out, at, 4, list.len() as u64);
    put_words(out, end, list)
}

// The n numbers of the list from one on, counted.
fn put_slots(out: &mut [u8], at: usize, list: &[u64], from: usize, n: usize) -> usize
    requires { (from + n ≤ length list.now) × (at + length (counted_bytes (take n (drop from list.now))) ≤ length out.old) }
    ensures { Laid out.old at (counted_bytes (take n (drop from list.now))) out.new result }
{
    put_counted(out, at, &list[from..from + n])
}

// The entry that the list begins with.
#[tactic(auto, unfolding(crate::specs::Writer::slots_in))]
fn put_entry(out: &mut [u8], at: usize, list: &[u64]) -> usize
    requires { BeginsEntry list.now × (at + length (entry_bytes (entry_in list.now)) ≤ length out.old) }
    ensures { Laid out.old at (entry_bytes (entry_in list.now)) out.new result }
{
    let reads = list[2] as usize;
    let writes = list[3] as usize;
    let keyed_reads = list[4] as usize;
    let keyed_writes = list[5] as usize;
    let second = 6 + reads;
    let third = second + writes;
    let fourth = third + keyed_reads;
    let mut end = put_number(out, at, 4, list[0]);
    end = put_number(out, end, 4, list[1]);
    end = put_slots(out, end, list, 6, reads);
    end = put_slots(out, end, list, second, writes);
    end = put_slots(out, end, list, third, keyed_reads);
    put_slots(out, end, list, fourth, keyed_writes)
}

// The n entries of a list.
#[tactic(auto, using(crate::specs::WriterLaws::begins_whole, crate::specs::WriterLaws::begins_below, crate::specs::WriterLaws::more_at))]
fn put_entries(out: &mut [u8], at: usize, n: u64, list: &[u64]) -> usize
    requires { (is_some (entries_in n list.now) ≡ true) × (at + length (entries_bytes (or_empty (entries_in n list.now))) ≤ length out.old) }
    ensures { Laid out.old at (entries_bytes (or_empty (entries_in n list.now))) out.new result }
{
    let mut end = at;
    let mut rest = list;
    for _i in 0..n {
        end = put_entry(out, end, rest);
        rest = &rest[6 + slots(rest)..];
    }
    end
}

// The container of code, constants and a list that is one, from the output's first byte on.
fn put(code: &[u8], consts: &[u64], list: &[u64], out: &mut [u8]) -> usize
    requires { (is_some (listed list.now) ≡ true) × (length (canonical (container_of code.now consts.now list.now)) ≤ length out.old) }
    ensures { Laid out.old 0 (canonical (container_of code.now consts.now list.now)) out.new result }
{
    let n = list[0];
    let mut end = put_number(out, 0, 4, TAG);
    end = put_number(out, end, 4, code.len() as u64);
    end = put_bytes(out, end, code);
    end = put_counted(out, end, consts);
    end = put_number(out, end, 4, n);
    put_entries(out, end, n, &list[1..])
}

// The canonical bytes of code, constants and a list of entries, and their length. A list: the number of entries, then for each its
// selector, its offset, four counts and its slots.
#[tactic(auto, using(crate::specs::WriterAnswerLaws::write_laws))]
pub fn write(code: &[u8], consts: &[u64], list: &[u64], out: &mut [u8]) -> Result<usize, WriteError>
    ensures answer { result ≡ written_of (to_write code.now consts.now list.now) out.old }
    ensures output { out.new ≡ writer_output (to_write code.now consts.now list.now) out.old }
{
    if code.len() as u64 >= FOUR_BYTES || consts.len() as u64 >= FOUR_BYTES || !is_list(list) {
        return Err(WriteError::BadList);
    }
    let n = list[0] as usize;
    let size = 8 + code.len() + consts.len() * 8 + list.len() * 8 - n * 24;
    if out.len() < size {
        return Err(WriteError::NoRoom);
    }
    Ok(put(code, consts, list, out))
}
