// What a Hash may authorise: the key at its output, if its base is declared keyed.
ghost use Rattle.std.specs.Prelude.{◌≡◌, List, ℕ, ◌≤◌};
ghost use Rattle.state.specs.declared.regs.RegFile.{RegFile};
ghost use Rattle.keys.specs.Lent.{given, key_env_of};
ghost use Rattle.keys.specs.declared.look.TableRows.{TableRows};
ghost use Rattle.machine.specs.Machine.{Env};
ghost use Rattle.machine.specs.CryptoRules.{base_of, tainting};
ghost use Rattle.machine.specs.Lent.{lent_to};
ghost use Rattle.machine.specs.Does.{DoesFrom, puts};
ghost use Rattle.ops_crypto.specs.Answers.{GoodLists, goes_with};

use machine::run::Run;
use machine::turn::{Put, Turn};
use state::fault::Fault;

// The first eight bytes that are hashed, if there are eight and they are in memory.
pub fn base_at(memory: &[u8], at: u64, len: u64) -> Option<u64>
    ensures { result ≡ base_of memory.now at len }
{
    if len < 8 {
        return None;
    }
    state::memory::mem_load(memory, at)
}

// Goes on, with what a reply puts into registers.
fn go_with(run: Run, put: Put) -> Turn
    ensures { result ≡ goes_with run put }
{
    Turn {
        run,
        put,
        fault: 0,
        halted: false,
    }
}

// With a base, the 32 bytes at the output, if in memory, are a key made from it. If the base is declared keyed, the key becomes authorised:
// its price (1), the total of new entries' bytes (11), room (48).
pub(crate) fn taint(
    base: Option<u64>,
    out: u64,
    run: Run,
    put: Put,
    keyed_reads: &[u8],
    keyed_writes: &[u8],
    memory: &[u8],
    readable: &mut [u8],
    writable: &mut [u8],
) -> Turn
    requires { (run.keyed ≤ 1048576) × GoodLists run.counts readable.old writable.old }
    ensures { (e : Env) (s rd wr st ld stack ch fe pd log : List ℕ) (d : ℕ) (f : RegFile) (l : TableRows) →
        e.keys ≡ key_env_of l (given rd wr keyed_reads.now keyed_writes.now st ld) →
        DoesFrom e s d (tainting e base out) run f (puts put f)
        (lent_to memory.now stack ch fe readable.old writable.old pd log)
        (lent_to memory.now stack ch fe readable.new writable.new pd log) result }
{
    let Some(n) = base else {
        return go_with(run, put);
    };
    let Some(key) = state::memory::mem_key(memory, out) else {
        return go_with(run, put);
    };
    let plan = keys::authorise::plan_authorise(
        run.counts,
        keyed_reads,
        keyed_writes,
        readable,
        writable,
        n,
        key,
    );
    if !plan.keyed {
        return go_with(run, put);
    }
    let Some(rest) = run.pay(plan.price) else {
        return machine::turn::stop(run, Fault::OutOfMeter);
    };
    if 1048576 - rest.keyed < plan.bytes {
        return machine::turn::stop(rest, Fault::EffectsTooLarge);
    }
    if !plan.room {
        return machine::turn::stop(rest, Fault::NoRoom);
    }
    let keyed = rest.keyed + plan.bytes;
    let counts = keys::authorise::authorise(rest.counts, plan, readable, writable, key);
    go_with(
        Run {
            counts,
            keyed,
            ..rest
        },
        put,
    )
}
