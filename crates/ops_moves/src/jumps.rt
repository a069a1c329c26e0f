// Jumps, calls and returns.
ghost use Rattle.std.specs.Prelude.{◌≤◌, length};
ghost use Rattle.ops_moves.specs.Around.{Jumps, JumpsTo, Calls, Returns};

use machine::action::Jump;
use machine::run::Run;
use machine::turn::Turn;
use state::fault::Fault;

// Goes to a target that is an instruction start.
fn jump(run: Run, starts: &[u8], target: u64) -> Turn
    ensures { JumpsTo run target starts.now result }
{
    if !starts::marks::is_start(starts, target) {
        return machine::turn::stop(run, Fault::BadJump);
    }
    machine::turn::go_on(Run { pc: target, ..run })
}

// The return address goes onto the stack before the target is looked at.
fn call(run: Run, starts: &[u8], stack: &mut [u64], target: u64) -> Turn
    ensures { Calls run target starts.now stack.old stack.new result }
{
    let Some(depth) = state::stack::push(stack, run.depth, run.pc) else {
        return machine::turn::stop(run, Fault::StackOverflow);
    };
    jump(Run { depth, ..run }, starts, target)
}

fn ret(run: Run, starts: &[u8], stack: &[u64]) -> Turn
    requires { run.depth ≤ length stack.now }
    ensures { Returns run starts.now stack.now result }
{
    let Some(target) = state::stack::pop(stack, run.depth) else {
        return machine::turn::stop(run, Fault::StackUnderflow);
    };
    let depth = run.depth - 1;
    jump(Run { depth, ..run }, starts, target)
}

pub fn step(o: Jump, run: Run, regs: &[u64], starts: &[u8], stack: &mut [u64]) -> Turn
    requires { run.depth ≤ length stack.old }
    ensures { Jumps o run regs.now starts.now stack.old stack.new result }
{
    match o {
        Jump::Jmp(target) => jump(run, starts, target),
        Jump::Jz(a, target) => {
            if state::regs::read(regs, a) != 0 {
                return machine::turn::go_on(run);
            }
            jump(run, starts, target)
        }
        Jump::Jnz(a, target) => {
            if state::regs::read(regs, a) == 0 {
                return machine::turn::go_on(run);
            }
            jump(run, starts, target)
        }
        Jump::Call(target) => call(run, starts, stack, target),
        Jump::Ret => ret(run, starts, stack),
    }
}
