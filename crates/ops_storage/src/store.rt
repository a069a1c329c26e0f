// Storing a value at a key.
ghost use Rattle.std.specs.Prelude.{◌≡◌, List, ℕ};
ghost use Rattle.words.specs.Bytes.{num};
ghost use Rattle.tables.specs.Table.{Table};
ghost use Rattle.state.specs.declared.regs.RegFile.{RegFile};
ghost use Rattle.keys.specs.Lent.{key_bufs, given, key_env_of};
ghost use Rattle.keys.specs.Sound.{Loader, Good};
ghost use Rattle.machine.specs.Machine.{Env};
ghost use Rattle.machine.specs.StorageRules.{storing};
ghost use Rattle.machine.specs.Lent.{lent_to};
ghost use Rattle.machine.specs.Does.{Does};

use keys::look::TableRows;
use machine::run::Run;
use machine::turn::Turn;
use state::fault::Fault;
use tables::rows::Rows;

// The right to write (12), the price (1), then room in every table (48). The tables are good beside some readable keys.
pub(crate) fn store_key(
    run: Run,
    lent: TableRows,
    writes: &[u8],
    store: &[u8],
    loader: &[u8],
    changes: &mut [u8],
    fetched: &mut [u8],
    writable: &[u8],
    paid: &mut [u8],
    key: &[u8; 32],
    v: u64,
) -> Turn
    requires { Table 40 lent.store store.now × Loader lent.has_loader lent.loader loader.now × ((mr : List ℕ) ×
        Good run.counts (key_bufs changes.old fetched.old mr writable.now paid.old)) }
    ensures { (e : Env) (s reads kr kw mr memory stack log : List ℕ) (d : ℕ) (f : RegFile) → e.keys ≡
        key_env_of lent (given reads writes.now kr kw store.now loader.now) →
        Does e s d (storing e (num key.now) v) run f
        (lent_to memory stack changes.old fetched.old mr writable.now paid.old log)
        (lent_to memory stack changes.new fetched.new mr writable.now paid.new log) result }
{
    let c = run.counts;
    let may_write: Rows<32> = Rows {
        bytes: writable,
        count: c.writes,
    };
    if !keys::rights::may_store(writes, may_write, key) {
        return machine::turn::stop(run, Fault::UndeclaredSlot);
    }
    let plan = keys::store::plan_store(
        lent, c, store, loader, changes, fetched, writable, paid, key, v,
    );
    let Some(rest) = run.pay(plan.price) else {
        return machine::turn::stop(run, Fault::OutOfMeter);
    };
    if !plan.room {
        return machine::turn::stop(rest, Fault::NoRoom);
    }
    let counts = keys::store::store(c, plan, changes, fetched, paid, key, v);
    machine::turn::go_on(Run { counts, ..rest })
}
