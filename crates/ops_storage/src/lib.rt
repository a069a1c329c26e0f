// Loading and storing the value at a key that stands in memory.
#![tactic(auto)]

ghost use Rattle.std.specs.Prelude.{◌≡◌, List, ℕ};
ghost use Rattle.tables.specs.Table.{Table};
ghost use Rattle.state.specs.Regs.{file};
ghost use Rattle.keys.specs.Lent.{key_bufs, given, key_env_of};
ghost use Rattle.keys.specs.Sound.{Loader, Good};
ghost use Rattle.machine.specs.Machine.{Env};
ghost use Rattle.machine.specs.StorageRules.{access_of};
ghost use Rattle.machine.specs.Lent.{lent_to};
ghost use Rattle.machine.specs.Does.{Does};
ghost use Rattle.ops_storage.specs.Answered.{key_register};

use keys::look::TableRows;
use machine::action::Access;
use machine::run::Run;
use machine::turn::Turn;
use state::fault::Fault;

mod load;
mod store;

// The register that says where the key stands.
fn key_register(o: Access) -> u8
    ensures { result ≡ key_register o }
{
    match o {
        Access::SLoad(_, a) => a,
        Access::SStore(a, _) => a,
    }
}

// SLoad and SStore: the 32 bytes of the key must lie in memory (6).
pub fn access(
    o: Access,
    run: Run,
    regs: &[u64],
    lent: TableRows,
    reads: &[u8],
    writes: &[u8],
    store: &[u8],
    loader: &[u8],
    memory: &[u8],
    changes: &mut [u8],
    fetched: &mut [u8],
    readable: &[u8],
    writable: &[u8],
    paid: &mut [u8],
) -> Turn
    requires { Table 40 lent.store store.now × Loader lent.has_loader lent.loader loader.now ×
        Good run.counts (key_bufs changes.old fetched.old readable.now writable.now paid.old) }
    ensures { (e : Env) (s kr kw stack log : List ℕ) (d : ℕ) → e.keys ≡
        key_env_of lent (given reads.now writes.now kr kw store.now loader.now) →
        Does e s d (access_of e o) run (file regs.now)
        (lent_to memory.now stack changes.old fetched.old readable.now writable.now
        paid.old log) (lent_to memory.now stack changes.new fetched.new readable.now
        writable.now paid.new log) result }
{
    let place = state::regs::read(regs, key_register(o));
    let Some(key) = state::memory::mem_key(memory, place) else {
        return machine::turn::stop(run, Fault::BadMemory);
    };
    match o {
        Access::SLoad(d, _) => crate::load::load_key(
            d, run, lent, reads, writes, store, loader, changes, fetched, readable, key,
        ),
        Access::SStore(_, b) => crate::store::store_key(
            run,
            lent,
            writes,
            store,
            loader,
            changes,
            fetched,
            writable,
            paid,
            key,
            state::regs::read(regs, b),
        ),
    }
}
