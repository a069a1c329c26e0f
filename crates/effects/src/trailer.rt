// The trailer of a record, read from the record's end.
ghost use Rattle.std.specs.Prelude.{◌≡◌, ◌≤◌, ◌<◌, length};
ghost use Rattle.effects.specs.Trailers.{EndingAt};

// A record's kind, word and number of bytes, and where it begins. The kind is a number: a lent log may hold any (`log_of`).
#[derive(Clone, Copy)]
pub struct Trailer {
    pub kind: u8,
    pub word: u64,
    pub length: usize,
    pub from: usize,
}

// Of bytes that are no record.
fn nothing() -> Trailer
    ensures { result ≡ record { kind = 255; word = 0; length = 0; from = 0 } }
{
    Trailer {
        kind: 255,
        word: 0,
        length: 0,
        from: 0,
    }
}

// The record that ends at a place of a log.
pub fn record_ending_at(log: &[u8], at: usize) -> Trailer
    requires { (0 < at) × (at ≤ length log.now) }
    ensures { EndingAt log.now at result }
{
    if at < 13 {
        return nothing();
    }
    let body = at - 13;
    let n = words::bytes::read(log, at - 4, 4) as usize;
    if body < n {
        return nothing();
    }
    Trailer {
        kind: log[body],
        word: words::bytes::read(log, body + 1, 8),
        length: n,
        from: body - n,
    }
}
