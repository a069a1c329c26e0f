// Authorising a key made from a base.
ghost use Rattle.std.specs.Prelude.{◌≡◌};
ghost use Rattle.replay_key_steps.specs.Sound.{Sound};

use crate::lent::Tables;
use std::io;
use std::io::Write;

// The price, the bytes of new entries, and how many keys both lists have then, or the refusal.
pub(crate) fn authorise<W: Write>(
    out: &mut W,
    slots: &[u8; 384],
    t: &mut Tables,
    step: &[u8; 41],
) -> io::Result<()>
    requires { Sound t.old }
    ensures sound { Sound t.new }
    ensures kept { t.new ≡ record t.old {
      counts = t.new.counts;
      readable = t.new.readable;
      writable = t.new.writable;
    } }
{
    let c = t.counts;
    let k = step[1..33].as_array::<32>().unwrap();
    let base = words::bytes::read(step, 33, 8);
    let keyed_reads = &slots[192..288];
    let keyed_writes = &slots[288..];
    let plan = keys::authorise::plan_authorise(
        c,
        keyed_reads,
        keyed_writes,
        &t.readable,
        &t.writable,
        base,
        k,
    );
    if !plan.keyed {
        return print::text(out, b"not keyed");
    }
    crate::tell::key_plan(out, plan)?;
    if !plan.room {
        return print::text(out, b" no 48");
    }
    t.counts = keys::authorise::authorise(c, plan, &mut t.readable, &mut t.writable, k);
    crate::tell::authorised(out, t.counts)
}
