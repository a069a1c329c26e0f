// Hash: the reply, and what it may authorise.
ghost use Rattle.std.specs.Prelude.{◌≡◌, List, ℕ, ◌*◌, ◌≤◌, length};
ghost use Rattle.state.specs.Regs.{file};
ghost use Rattle.keys.specs.Lent.{given, key_env_of};
ghost use Rattle.keys.specs.declared.look.TableRows.{TableRows};
ghost use Rattle.machine.specs.Machine.{Env};
ghost use Rattle.machine.specs.CryptoRules.{hash_of};
ghost use Rattle.machine.specs.Lent.{lent_to};
ghost use Rattle.machine.specs.Does.{Does};
ghost use Rattle.ops_crypto.specs.Answers.{GoodLists};

use machine::run::Run;
use machine::turn::Turn;
use state::fault::Fault;

// The price (1), the reply, then what it makes of the base; base and output are taken before the reply.
pub fn hash(
    a: u8,
    b: u8,
    c: u8,
    run: Run,
    regs: &[u64],
    replies: &[u8],
    keyed_reads: &[u8],
    keyed_writes: &[u8],
    memory: &mut [u8],
    readable: &mut [u8],
    writable: &mut [u8],
) -> Turn
    requires { (run.replies * 48 ≤ length replies.now) × (run.keyed ≤ 1048576) × GoodLists run.counts readable.old writable.old }
    ensures { (e : Env) (l : TableRows) (rd wr st ld ch fe pd stack log : List ℕ) (d : ℕ) → e.keys ≡
        key_env_of l (given rd wr keyed_reads.now keyed_writes.now st ld) →
        Does e replies.now d (hash_of e a b c) run (file regs.now)
        (lent_to memory.old stack ch fe readable.old writable.old pd log)
        (lent_to memory.new stack ch fe readable.new writable.new pd log) result }
{
    let at = state::regs::read(regs, a);
    let len = state::regs::read(regs, b);
    let out = state::regs::read(regs, c);
    let base = crate::taint::base_at(memory, at, len);
    let Some(rest) = run.pay(meter::hash_variable(len)) else {
        return machine::turn::stop(run, Fault::OutOfMeter);
    };
    let t = crate::ask::ask(rest, replies, memory);
    if t.fault != 0 {
        return t;
    }
    crate::taint::taint(
        base,
        out,
        t.run,
        t.put,
        keyed_reads,
        keyed_writes,
        memory,
        readable,
        writable,
    )
}
