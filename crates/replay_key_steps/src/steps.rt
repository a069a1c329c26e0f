// The records of a run: an operation (1 byte), a key (32) and a value (8).
ghost use Rattle.replay_key_steps.specs.Sound.{Lends, Sound};

use crate::lent::{Lent, Tables};
use crate::operation::Operation;
use keys::counts::Counts;
use std::io;
use std::io::Write;

const NO_ROWS: Counts = Counts {
    changes: 0,
    fetched: 0,
    reads: 0,
    writes: 0,
    paid: 0,
};

fn one<W: Write>(out: &mut W, lent: Lent, t: &mut Tables, step: &[u8; 41]) -> io::Result<()>
    requires { Lends lent.rows lent.store.now lent.loader.now × Sound t.old }
    ensures { Sound t.new }
{
    match Operation::from(step[0]) {
        Operation::Load => crate::load::load(out, lent, t, step),
        Operation::Store => crate::store::store(out, lent, t, step),
        Operation::Authorise => crate::authorise::authorise(out, lent.slots, t, step),
        Operation::Tables => crate::tell::tables(out, t),
    }
}

pub(crate) fn steps<W: Write>(out: &mut W, lent: Lent, records: &[u8]) -> io::Result<()>
    requires { Lends lent.rows lent.store.now lent.loader.now }
{
    let mut tables = Tables {
        counts: NO_ROWS,
        changes: [0; 490],
        fetched: [0; 410],
        readable: [0; 330],
        writable: [0; 256],
        paid: [0; 130],
    };
    for step in records.as_chunks::<41>().0 {
        one(out, lent, &mut tables, step)?;
        print::text(out, b"\n")?;
    }
    Ok(())
}
