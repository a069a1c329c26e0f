// Rows of replies: whether they are, and each.
ghost use Rattle.std.specs.Prelude.{◌≡◌, ◌+◌, ◌*◌, ◌≤◌, length, take, drop};
ghost use Rattle.replies.specs.Reply.{reply_of};
ghost use Rattle.replies.specs.Replies.{replies_of};

use crate::reply::Reply;

// How many rows there are, or that they are bad.
pub fn check_replies(s: &[u8]) -> Option<usize>
    ensures { result ≡ replies_of s.now }
{
    if s.len() % 48 != 0 {
        return None;
    }
    for row in s.chunks_exact(48) {
        if !crate::reply::good(row) {
            return None;
        }
    }
    Some(s.len() / 48)
}

// Row i.
pub fn reply(s: &[u8], i: usize) -> Reply
    requires { i * 48 + 48 ≤ length s.now }
    ensures { result ≡ reply_of (take 48 (drop (i * 48) s.now)) }
{
    let at = i * 48;
    crate::reply::parse(&s[at..at + 48])
}
