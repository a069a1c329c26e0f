// How many records a log has, and how many are events.
ghost use Rattle.std.specs.Prelude.{◌≡◌, List, eqb, length};
ghost use Rattle.words.specs.Choice.{bit, either};
ghost use Rattle.effects.specs.Log.{Effect, FitTrailers, log_of};
ghost use Rattle.effects.specs.Counts;
ghost use Rattle.effects.specs.Counts.{count_of};

use crate::trailer::Trailer;

// 1 for a record that counts: an event, or any.
fn weight(t: Trailer, all: bool) -> usize
    ensures { result ≡ bit (either all (eqb t.kind 1)) }
{
    usize::from(all || t.kind == 1)
}

// How many records of the log count.
fn count(log: &[u8], all: bool) -> usize
    ensures { (es : List Effect) → FitTrailers es → log.now ≡ log_of es → result ≡ count_of all es }
{
    let mut n = 0;
    let mut at = log.len();
    // No range to go over: where a record begins is read in its trailer.
    while at > 0 {
        let t = crate::trailer::record_ending_at(log, at);
        n += weight(t, all);
        at = t.from;
    }
    n
}

// The number of records in the log. With `events` one of two names for `count`, so that a caller reads what it asks for.
pub fn records(log: &[u8]) -> usize
    ensures { (es : List Effect) → FitTrailers es → log.now ≡ log_of es → result ≡ length es }
{
    count(log, true)
}

// The number of events in the log.
pub fn events(log: &[u8]) -> usize
    ensures { (es : List Effect) → FitTrailers es → log.now ≡ log_of es → result ≡ Counts.events es }
{
    count(log, false)
}
