// Crypto instructions that only take a reply.
ghost use Rattle.std.specs.Prelude.{◌≡◌, List, ℕ, ◌-◌, ◌*◌, ◌^◌, ◌≤◌, min, length};
ghost use Rattle.state.specs.Regs.{file};
ghost use Rattle.keys.specs.Lent as tables;
ghost use Rattle.machine.specs.Machine.{Env};
ghost use Rattle.machine.specs.Lent.{bufs};
ghost use Rattle.machine.specs.CryptoRules.{check_of};
ghost use Rattle.machine.specs.Does.{Does};
ghost use Rattle.ops_crypto.specs.Prices.{check_price};

use machine::action::Check;
use machine::host::Host;
use machine::run::Run;
use machine::turn::Turn;
use state::fault::Fault;

// The price beyond the base price, or the largest word.
fn price(o: Check, regs: &[u64], host: Host) -> u64
    ensures { result ≡ min (check_price o (file regs.now) host) (2 ^ 64 - 1) }
{
    match o {
        Check::VerifyMl(b) => {
            meter::message_variable(state::regs::read(regs, b), host.ml_signed)
        }
        Check::VerifySlh(b) => {
            meter::message_variable(state::regs::read(regs, b), host.slh_signed)
        }
        Check::MerkleVerify(b) => meter::merkle_variable(state::regs::read(regs, b)),
        Check::Addr => 0,
    }
}

// The price (1), then the reply.
pub fn check(
    o: Check,
    run: Run,
    regs: &[u64],
    host: Host,
    replies: &[u8],
    memory: &mut [u8],
) -> Turn
    requires { run.replies * 48 ≤ length replies.now }
    ensures { (e : Env) (stack log : List ℕ) (d : ℕ) (ks : tables.KeyBufs) → e.host ≡ host →
        Does e replies.now d (check_of e o) run (file regs.now) (bufs memory.old stack ks log) (bufs
        memory.new stack ks log) result }
{
    let p = price(o, regs, host);
    let Some(rest) = run.pay(p) else {
        return machine::turn::stop(run, Fault::OutOfMeter);
    };
    crate::ask::ask(rest, replies, memory)
}
