// Send and Emit (document 01, The run).
ghost use Rattle.std.specs.Prelude.{◌≡◌, ◌≤◌, length};
ghost use Rattle.ops_posts.specs.EffectRules.{placing, Comes, Posts};

use machine::action::Post;
use machine::run::Run;
use machine::turn::Turn;
use state::fault::Fault;

// An effect of a region's bytes: the region (6), 2 a byte (1), the bytes and 32 into the total (11), the prices that are left (1), the
// record (48). An event is of kind 1, so its kind counts it.
fn post_effect(
    run: Run,
    memory: &[u8],
    log: &mut [u8],
    kind: u8,
    word: u64,
    at: u64,
    n: u64,
) -> Turn
    requires { (run.log ≤ length log.old) × (run.events ≤ run.posted) × (run.posted ≤ 1048576) × (kind ≤ 1) × (length memory.now ≡ 65536) }
    ensures { Comes (λ e. placing e kind word memory.now at n) run log.old log.new result }
{
    let Some((start, end)) = state::memory::mem_region(memory, at, n) else {
        return machine::turn::stop(run, Fault::BadMemory);
    };
    let bytes = &memory[start..end];
    let Some(moved) = run.pay(2 * bytes.len() as u64) else {
        return machine::turn::stop(run, Fault::OutOfMeter);
    };
    let posted = moved.posted + bytes.len() as u64 + 32;
    if posted > 1048576 {
        return machine::turn::stop(run, Fault::EffectsTooLarge);
    }
    let price = crate::prices::price(moved.events, &log[..moved.log], kind, word, bytes);
    let counted = Run { posted, ..moved };
    let Some(paid) = counted.pay(price) else {
        return machine::turn::stop(run, Fault::OutOfMeter);
    };
    let Some(to) = effects::log::append(log, paid.log, kind, word, bytes) else {
        return machine::turn::stop(run, Fault::NoRoom);
    };
    let events = paid.events + kind as u64;
    machine::turn::go_on(Run {
        log: to,
        events,
        ..paid
    })
}

// One Send or Emit.
pub fn post(o: Post, run: Run, regs: &[u64], memory: &[u8], log: &mut [u8]) -> Turn
    requires { (run.log ≤ length log.old) × (run.events ≤ run.posted) × (run.posted ≤ 1048576) × (length memory.now ≡ 65536) }
    ensures { Posts o run regs.now memory.now log.old log.new result }
{
    match o {
        Post::Send(a, b, c) => {
            let amount = state::regs::read(regs, c);
            let at = state::regs::read(regs, a);
            post_effect(run, memory, log, 0, amount, at, state::regs::read(regs, b))
        }
        Post::Emit(a, b, c) => {
            let selector = state::regs::read(regs, c);
            if selector > 4294967295 {
                return machine::turn::stop(run, Fault::Malformed);
            }
            let at = state::regs::read(regs, a);
            post_effect(
                run,
                memory,
                log,
                1,
                selector * 4294967296,
                at,
                state::regs::read(regs, b),
            )
        }
    }
}
