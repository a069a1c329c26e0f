// Storing a value at a key.
ghost use Rattle.std.specs.Prelude.{◌≡◌};
ghost use Rattle.replay_key_steps.specs.Sound.{Lends, Sound};

use crate::lent::{Lent, Tables};
use keys::store::plan_store;
use std::io;
use std::io::Write;
use tables::rows::Rows;

// The price, and how many rows the three tables have then, or the refusal.
pub(crate) fn store<W: Write>(
    out: &mut W,
    lent: Lent,
    t: &mut Tables,
    step: &[u8; 41],
) -> io::Result<()>
    requires { Lends lent.rows lent.store.now lent.loader.now × Sound t.old }
    ensures sound { Sound t.new }
    ensures kept { t.new ≡ record t.old {
      counts = t.new.counts;
      changes = t.new.changes;
      fetched = t.new.fetched;
      paid = t.new.paid;
    } }
{
    let c = t.counts;
    let k = step[1..33].as_array::<32>().unwrap();
    let v = words::bytes::read(step, 33, 8);
    let slots = lent.slots;
    let writable: Rows<32> = Rows {
        bytes: &t.writable,
        count: c.writes,
    };
    if !keys::rights::may_store(&slots[96..192], writable, k) {
        return print::text(out, b"no 12");
    }
    let plan = plan_store(
        lent.rows,
        c,
        lent.store,
        lent.loader,
        &t.changes,
        &t.fetched,
        &t.writable,
        &t.paid,
        k,
        v,
    );
    crate::tell::store_plan(out, plan)?;
    if !plan.room {
        return print::text(out, b" no 48");
    }
    t.counts = keys::store::store(c, plan, &mut t.changes, &mut t.fetched, &mut t.paid, k, v);
    crate::tell::stored(out, t.counts)
}
