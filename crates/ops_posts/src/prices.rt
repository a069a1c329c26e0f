// What an effect costs beyond 2 a byte, by the log before it.
ghost use Rattle.std.specs.Prelude.{◌≡◌, List, ◌≤◌, leb, length};
ghost use Rattle.words.specs.Choice.{pick};
ghost use Rattle.effects.specs.Log.{Effect, FitTrailers, log_of};
ghost use Rattle.effects.specs.Targets.{target_of};
ghost use Rattle.effects.specs.Counts;
ghost use Rattle.machine.specs.PostRules.{target_price};
ghost use Rattle.ops_posts.specs.EffectRules.{effect, later_price};

// The selector MINT, then four zero bytes.
const MINT: u64 = 0x4D494E5400000000;

// A target that the log does not hold, if it holds any: 227000.
fn target_price(log: &[u8], kind: u8, target: &[u8]) -> u64
    ensures { (result ≤ 227000) × ((es : List Effect) → FitTrailers es → log.now ≡ log_of es → result ≡
        target_price (Some (record { kind = kind; bytes = target.now })) es) }
{
    if effects::targets::known(log, kind, target) {
        return 0;
    }
    if effects::targets::any_target(log) {
        return 227000;
    }
    0
}

// Of events only a mint of at least 40 bytes has a target, its first 32.
fn mint_price(log: &[u8], word: u64, bytes: &[u8]) -> u64
    ensures { (result ≤ 227000) × ((es : List Effect) → FitTrailers es → log.now ≡ log_of es → result ≡
        target_price (target_of (effect 1 word bytes.now)) es) }
{
    if word != MINT {
        return 0;
    }
    if bytes.len() < 40 {
        return 0;
    }
    target_price(log, 1, &bytes[..32])
}

// 6250 from the fifth event.
fn event_price(events: u64) -> u64
    ensures { result ≡ pick (leb 4 events) 6250 0 }
{
    if events < 4 {
        return 0;
    }
    6250
}

// A transfer costs by its target; an event also by its bytes and the events before it. One sum, as nothing comes between these prices.
pub(crate) fn price(events: u64, log: &[u8], kind: u8, word: u64, bytes: &[u8]) -> u64
    requires { (kind ≤ 1) × (length bytes.now ≤ 65536) }
    ensures { (es : List Effect) → FitTrailers es → log.now ≡ log_of es → events ≡ Counts.events es → result ≡
        later_price (effect kind word bytes.now) es }
{
    if kind == 0 {
        return target_price(log, 0, bytes);
    }
    let mint = mint_price(log, word, bytes);
    98 * bytes.len() as u64 + mint + event_price(events)
}
