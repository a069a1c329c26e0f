// A call's file, cut into its parts.
#![tactic(auto)]

ghost use Rattle.std.specs.Prelude.{◌≡◌, ◌+◌, ◌^◌, ◌≤◌, ◌<◌, length, take, drop};
ghost use Rattle.words.specs.Bytes.{num};
ghost use Rattle.calls.specs.CallFile.{parted_of};

use std::cmp::Ordering;

// The bytes before the replies.
pub const HEAD: usize = 20;

// What the head says, and where the preload begins.
#[derive(Clone, Copy)]
pub struct Head {
    pub selector: u64,
    pub limit: u64,
    pub preload: usize,
}

// Where a file ends before its counts say, or goes on behind the preload.
#[derive(Clone, Copy, Debug, PartialEq, Eq)]
pub enum CutError {
    Short,
    Long,
}

// The number in four bytes of a head.
fn count(s: &[u8], at: usize) -> usize
    requires { at + 4 ≤ length s.now }
    ensures value { result ≡ num (take 4 (drop at s.now)) }
    ensures four_bytes { result < 2 ^ 32 }
{
    words::bytes::read(s, at, 4) as usize
}

// A file's head, where its counts fit its length.
#[tactic(auto, unfolding(crate::specs::CallFile::parted_of, crate::specs::CallFile::head_of, crate::specs::CallFile::end_at, crate::specs::CallFile::preload_at))]
pub fn cut(s: &[u8]) -> Result<Head, CutError>
    ensures { result ≡ parted_of s.now }
{
    if s.len() < HEAD {
        return Err(CutError::Short);
    }
    let preload = HEAD + count(s, 12) * 48;
    let end = preload + count(s, 16);
    match s.len().cmp(&end) {
        Ordering::Less => Err(CutError::Short),
        Ordering::Greater => Err(CutError::Long),
        Ordering::Equal => Ok(Head {
            selector: words::bytes::read(s, 0, 4),
            limit: words::bytes::read(s, 4, 8),
            preload,
        }),
    }
}
