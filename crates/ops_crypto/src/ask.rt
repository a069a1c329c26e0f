// The next reply.
ghost use Rattle.std.specs.Prelude.{◌≡◌, List, ℕ, ◌*◌, ◌≤◌, length};
ghost use Rattle.state.specs.declared.regs.RegFile.{RegFile};
ghost use Rattle.keys.specs.Lent as tables;
ghost use Rattle.machine.specs.Machine.{Env};
ghost use Rattle.machine.specs.Rules.{next};
ghost use Rattle.machine.specs.Lent.{bufs};
ghost use Rattle.machine.specs.CryptoRules.{asking};
ghost use Rattle.machine.specs.Does.{Does};

use machine::run::Run;
use machine::turn::Turn;
use state::fault::Fault;

// The next reply's value goes into its register and its bytes into memory; 47 when none is left, and a fault row stops with its fault.
pub(crate) fn ask(run: Run, replies: &[u8], memory: &mut [u8]) -> Turn
    requires { run.replies * 48 ≤ length replies.now }
    ensures keys { (result.run.counts ≡ run.counts) × (result.run.keyed ≡ run.keyed) }
    ensures turn { (e : Env) (stack log : List ℕ) (d : ℕ) (ks : tables.KeyBufs) (f : RegFile) →
        Does e replies.now d (λ m. asking m next) run f (bufs memory.old stack ks log) (bufs memory.new stack ks log) result }
{
    if replies.len() - run.replies * 48 < 48 {
        return machine::turn::stop(run, Fault::NoReply);
    }
    let row = replies::rows::reply(replies, run.replies);
    if row.outcome != 0 {
        return machine::turn::stop(run, Fault::Told(row.outcome));
    }
    let n = row.length.min(32);
    let bytes = row.bytes;
    state::memory::mem_write(memory, row.offset as u64, &bytes[..n]);
    let replies = run.replies + 1;
    machine::turn::set(Run { replies, ..run }, row.register, row.value)
}
