// Constants, the stack and memory.
ghost use Rattle.std.specs.Prelude.{◌≤◌, length};
ghost use Rattle.ops_moves.specs.Around.{Moves, Constants, Pushes, Pops, MemoryLoads, MemoryStores};

use machine::action::Move;
use machine::run::Run;
use machine::turn::Turn;
use state::fault::Fault;

// Constant k, where it stands among the container's bytes.
fn constant(run: Run, consts: &[u8], d: u8, k: usize) -> Turn
    ensures { Constants run consts.now d k result }
{
    if consts.len() / 8 <= k {
        return machine::turn::stop(run, Fault::BadConst);
    }
    let v = words::bytes::read(consts, k * 8, 8);
    machine::turn::set(run, d, v)
}

fn push(run: Run, stack: &mut [u64], v: u64) -> Turn
    ensures { Pushes run v stack.old stack.new result }
{
    let Some(depth) = state::stack::push(stack, run.depth, v) else {
        return machine::turn::stop(run, Fault::StackOverflow);
    };
    machine::turn::go_on(Run { depth, ..run })
}

fn pop(run: Run, stack: &[u64], d: u8) -> Turn
    requires { run.depth ≤ length stack.now }
    ensures { Pops run d stack.now result }
{
    let Some(v) = state::stack::pop(stack, run.depth) else {
        return machine::turn::stop(run, Fault::StackUnderflow);
    };
    let depth = run.depth - 1;
    machine::turn::set(Run { depth, ..run }, d, v)
}

fn load(run: Run, memory: &[u8], d: u8, at: u64) -> Turn
    ensures { MemoryLoads run d at memory.now result }
{
    match state::memory::mem_load(memory, at) {
        Some(v) => machine::turn::set(run, d, v),
        None => machine::turn::stop(run, Fault::BadMemory),
    }
}

fn store(run: Run, memory: &mut [u8], at: u64, v: u64) -> Turn
    ensures { MemoryStores run at v memory.old memory.new result }
{
    if state::memory::mem_store(memory, at, v) {
        return machine::turn::go_on(run);
    }
    machine::turn::stop(run, Fault::BadMemory)
}

pub fn step(
    o: Move,
    run: Run,
    regs: &[u64],
    consts: &[u8],
    memory: &mut [u8],
    stack: &mut [u64],
) -> Turn
    requires { run.depth ≤ length stack.old }
    ensures { Moves o run regs.now consts.now memory.old stack.old memory.new
        stack.new result }
{
    match o {
        Move::Ldc(d, k) => constant(run, consts, d, k),
        Move::Push(a) => push(run, stack, state::regs::read(regs, a)),
        Move::Pop(d) => pop(run, stack, d),
        Move::MLoad(d, a) => load(run, memory, d, state::regs::read(regs, a)),
        Move::MStore(a, b) => {
            let at = state::regs::read(regs, a);
            store(run, memory, at, state::regs::read(regs, b))
        }
    }
}
