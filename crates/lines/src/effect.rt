// Lines of a log's effects, and where each record of a log ends.
ghost use Rattle.std.specs.Prelude.{◌≡◌, List, ◌∷◌, ◌+◌, ◌*◌, ◌≤◌, ◌<◌, length, take, drop};
ghost use Rattle.words.specs.Laid.{Laid};
ghost use Rattle.effects.specs.Log.{Effect, FitTrailers, log_of};
ghost use Rattle.text.specs.Hex.{hex_of};
ghost use Rattle.lines.specs.EffectLines.{transfer_line, selector_of, event_line, line_within};

use effects::trailer::record_ending_at;
use text::decimal::field;
use text::hex::hex;
use words::laid::put_bytes;

// What a line takes beside the digits of its bytes.
const LEAST: usize = 80;

// The kind of a transfer's record.
const TRANSFER: u8 = 0;

fn transfer_line(out: &mut [u8], amount: u64, target: &[u8]) -> usize
    requires { length target.now * 2 + 80 ≤ length out.old }
    ensures { Laid out.old 0 (transfer_line amount target.now) out.new result }
{
    let a = field(out, 0, b"transfer ", amount);
    let b = put_bytes(out, a, b" to ");
    hex(out, b, target)
}

// The selector of an event is its word's first four bytes.
fn selector(out: &mut [u8], at: usize, word: u64) -> usize
    requires { at + 8 ≤ length out.old }
    ensures { Laid out.old at (hex_of (selector_of word)) out.new result }
{
    hex(out, at, &word.to_be_bytes()[..4])
}

fn event_line(out: &mut [u8], word: u64, bytes: &[u8]) -> usize
    requires { length bytes.now * 2 + 80 ≤ length out.old }
    ensures { Laid out.old 0 (event_line word bytes.now) out.new result }
{
    let a = put_bytes(out, 0, b"event ");
    let b = selector(out, a, word);
    let c = field(out, b, b" length ", bytes.len() as u64);
    let d = put_bytes(out, c, b" data ");
    hex(out, d, bytes)
}

// The line of the effect whose record ends at a place of a log; nothing where the output is too short for it.
pub fn effect_line(out: &mut [u8], log: &[u8], at: usize) -> usize
    requires { (0 < at) × (at ≤ length log.now) }
    ensures { (e : Effect) (es : List Effect) → FitTrailers (e ∷ es) → take at log.now ≡ log_of (e ∷ es) →
        Laid out.old 0 (line_within (length out.old) e) out.new result }
{
    let t = record_ending_at(log, at);
    if out.len() < LEAST || (out.len() - LEAST) / 2 < t.length {
        return 0;
    }
    let data = &log[t.from..t.from + t.length];
    if t.kind == TRANSFER {
        transfer_line(out, t.word, data)
    } else {
        event_line(out, t.word, data)
    }
}

// Where a log ends without its k newest records.
pub fn end_before_newest(log: &[u8], k: usize) -> usize
    ensures { (result ≤ length log.now) × ((es : List Effect) → FitTrailers es → log.now ≡ log_of es →
        take result log.now ≡ log_of (drop k es)) }
{
    let mut at = log.len();
    for _i in 0..k {
        if at == 0 {
            return 0;
        }
        at = record_ending_at(log, at).from;
    }
    at
}
