// Loading the value at a key into a register.
ghost use Rattle.std.specs.Prelude.{◌≡◌, List, ℕ};
ghost use Rattle.words.specs.Bytes.{num};
ghost use Rattle.tables.specs.Table.{Table};
ghost use Rattle.state.specs.declared.regs.RegFile.{RegFile};
ghost use Rattle.keys.specs.Lent.{key_bufs, given, key_env_of};
ghost use Rattle.keys.specs.Sound.{Loader, Good};
ghost use Rattle.machine.specs.Machine.{Env};
ghost use Rattle.machine.specs.StorageRules.{loading};
ghost use Rattle.machine.specs.Lent.{lent_to};
ghost use Rattle.machine.specs.Does.{Does};

use keys::look::TableRows;
use machine::run::Run;
use machine::turn::Turn;
use state::fault::Fault;
use tables::rows::Rows;

// The right to read (12), then room for a value that came from the loader (48). The tables are good beside some writable and paid keys.
pub(crate) fn load_key(
    to: u8,
    run: Run,
    lent: TableRows,
    reads: &[u8],
    writes: &[u8],
    store: &[u8],
    loader: &[u8],
    changes: &[u8],
    fetched: &mut [u8],
    readable: &[u8],
    key: &[u8; 32],
) -> Turn
    requires { Table 40 lent.store store.now × Loader lent.has_loader lent.loader loader.now × ((mw : List ℕ) × (pd : List ℕ) ×
        Good run.counts (key_bufs changes.now fetched.old readable.now mw pd)) }
    ensures { (e : Env) (s kr kw mw pd memory stack log : List ℕ) (d : ℕ) (f : RegFile) → e.keys ≡
        key_env_of lent (given reads.now writes.now kr kw store.now loader.now) →
        Does e s d (loading e to (num key.now)) run f
        (lent_to memory stack changes.now fetched.old readable.now mw pd log)
        (lent_to memory stack changes.now fetched.new readable.now mw pd log) result }
{
    let c = run.counts;
    let readable: Rows<32> = Rows {
        bytes: readable,
        count: c.reads,
    };
    if !keys::rights::may_load(reads, writes, readable, key) {
        return machine::turn::stop(run, Fault::UndeclaredSlot);
    }
    let store: Rows<40> = Rows {
        bytes: store,
        count: lent.store,
    };
    let loader = keys::look::loader_table(lent, loader);
    let changes: Rows<40> = Rows {
        bytes: changes,
        count: c.changes,
    };
    let known: Rows<40> = Rows {
        bytes: fetched,
        count: c.fetched,
    };
    let seen = keys::look::look_up(store, loader, changes, known, key);
    if !keys::load::load_room(c, fetched, key, seen) {
        return machine::turn::stop(run, Fault::NoRoom);
    }
    let counts = keys::load::load(c, fetched, key, seen);
    machine::turn::set(Run { counts, ..run }, to, seen.value)
}
