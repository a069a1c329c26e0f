// Durable targets: those of transfers and of mints (document 01, The run: Send, Emit).
ghost use Rattle.std.specs.Prelude.{◌≡◌, List};
ghost use Rattle.effects.specs.Log.{Effect, FitTrailers, log_of};
ghost use Rattle.effects.specs.Targets.{known_in, any_target};
ghost use Rattle.effects.specs.Trailers.{durable_of, alike_of};

use crate::trailer::Trailer;

// The selector MINT, then four zero bytes.
const MINT: u64 = 0x4D494E5400000000;

// Whether a record has a target.
#[tactic(auto, unfolding(crate::specs::Trailers::durable_of, crate::specs::Targets::mints))]
fn durable(t: Trailer) -> bool
    ensures { result ≡ durable_of t }
{
    t.kind == 0 || (t.kind == 1 && t.word == MINT && t.length >= 40)
}

// Whether a record has a target of this kind and this many bytes.
#[tactic(auto, unfolding(crate::specs::Trailers::alike_of))]
fn alike(t: Trailer, kind: u8, size: usize) -> bool
    ensures { result ≡ alike_of t kind size }
{
    if t.kind == 0 {
        kind == 0 && size == t.length
    } else {
        t.kind == kind && durable(t) && size == 32
    }
}

// Whether the log holds a target of this kind and these bytes.
pub fn known(log: &[u8], kind: u8, target: &[u8]) -> bool
    ensures { (es : List Effect) → FitTrailers es → log.now ≡ log_of es →
        result ≡ known_in (record { kind = kind; bytes = target.now }) es }
{
    let mut at = log.len();
    // Document 01 names the form: a label leaves both walks.
    'walk: loop {
        if at == 0 {
            break 'walk false;
        }
        let t = crate::trailer::record_ending_at(log, at);
        at = t.from;
        if !alike(t, kind, target.len()) {
            continue 'walk;
        }
        for i in (0..target.len()).rev() {
            if log[at + i] != target[i] {
                continue 'walk;
            }
        }
        break 'walk true;
    }
}

// Whether the log holds a target.
pub fn any_target(log: &[u8]) -> bool
    ensures { (es : List Effect) → FitTrailers es → log.now ≡ log_of es → result ≡ any_target es }
{
    let mut at = log.len();
    // No range to go over: where a record begins is read in its trailer.
    while at > 0 {
        let t = crate::trailer::record_ending_at(log, at);
        if durable(t) {
            return true;
        }
        at = t.from;
    }
    false
}
