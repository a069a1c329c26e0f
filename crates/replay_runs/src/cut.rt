// A record: a head, and parts that are as long as it says.
use std::io;
use std::io::Read;

// The bytes before a record's parts.
pub const HEAD: usize = 74;

// A record's parts, none past its end.
#[derive(Clone, Copy)]
pub struct Parts<'a> {
    pub container: &'a [u8],
    pub store: &'a [u8],
    pub loader: &'a [u8],
    pub replies: &'a [u8],
    pub preload: &'a [u8],
}

// The number in four bytes of a head; 0 where no four stand.
pub fn number(head: &[u8; HEAD], at: usize) -> usize {
    let Some(from) = head.get(at..) else {
        return 0;
    };
    let Some(four) = from.first_chunk::<4>() else {
        return 0;
    };
    u32::from_be_bytes(*four) as usize
}

// As many bytes as are asked for, as far as they stand, and the rest.
fn part(s: &[u8], n: usize) -> (&[u8], &[u8]) {
    s.split_at(n.min(s.len()))
}

// The parts in the bytes behind a head.
pub fn split<'a>(head: &[u8; HEAD], behind: &'a [u8]) -> Parts<'a> {
    let (container, rest) = part(behind, number(head, 50));
    let (store, rest) = part(rest, number(head, 54));
    let (loader, rest) = part(rest, number(head, 58));
    let (replies, rest) = part(rest, number(head, 62));
    let (preload, _) = part(rest, number(head, 66));
    Parts {
        container,
        store,
        loader,
        replies,
        preload,
    }
}

// How many bytes a record's parts have.
fn behind(head: &[u8; HEAD]) -> usize {
    let mut n: usize = 0;
    for at in [50, 54, 58, 62, 66] {
        n = n.saturating_add(number(head, at));
    }
    n
}

// Reads a record into the front of the bytes, as far as it has room; how many it has, 0 at the input's end.
pub fn read_record<R: Read>(from: &mut R, t: &mut [u8]) -> io::Result<usize> {
    let Some((head, rest)) = t.split_first_chunk_mut::<HEAD>() else {
        return Ok(0);
    };
    if print::input::fill(from, head)? < HEAD {
        return Ok(0);
    }
    let n = behind(head).min(rest.len());
    print::input::fill(from, &mut rest[..n])?;
    Ok(HEAD + n)
}
