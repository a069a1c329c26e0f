// Loading a key.
ghost use Rattle.std.specs.Prelude.{◌≡◌};
ghost use Rattle.replay_key_steps.specs.Sound.{Lends, Sound};

use crate::lent::{Lent, Tables};
use keys::look::{loader_table, look_up};
use std::io;
use std::io::Write;
use tables::rows::Rows;

// Its value and how many values were fetched so far, or the refusal.
pub(crate) fn load<W: Write>(
    out: &mut W,
    lent: Lent,
    t: &mut Tables,
    step: &[u8; 41],
) -> io::Result<()>
    requires { Lends lent.rows lent.store.now lent.loader.now × Sound t.old }
    ensures sound { Sound t.new }
    ensures kept { t.new ≡ record t.old { counts = t.new.counts; fetched = t.new.fetched } }
{
    let c = t.counts;
    let k = step[1..33].as_array::<32>().unwrap();
    let slots = lent.slots;
    let reads = &slots[..96];
    let writes = &slots[96..192];
    let readable: Rows<32> = Rows {
        bytes: &t.readable,
        count: c.reads,
    };
    if !keys::rights::may_load(reads, writes, readable, k) {
        return print::text(out, b"no 12");
    }
    let store: Rows<40> = Rows {
        bytes: lent.store,
        count: lent.rows.store,
    };
    let loader = loader_table(lent.rows, lent.loader);
    let changes: Rows<40> = Rows {
        bytes: &t.changes,
        count: c.changes,
    };
    let fetched: Rows<40> = Rows {
        bytes: &t.fetched,
        count: c.fetched,
    };
    let seen = look_up(store, loader, changes, fetched, k);
    if !keys::load::load_room(c, &t.fetched, k, seen) {
        return print::text(out, b"no 48");
    }
    t.counts = keys::load::load(c, &mut t.fetched, k, seen);
    crate::tell::loaded(out, seen, t.counts)
}
