// One instruction, by its group.
ghost use Rattle.machine.specs.declared.action.Action.TheVariants.{Storage, Hash};
ghost use Rattle.interp.specs.Ties.{Ready, Steps, StepsAs};
ghost use Rattle.interp.specs.Held.{parts_of, held, Kept};

use crate::program::Program;
use crate::work::Work;
use isa::instr::Instr;
use machine::action::{Access, Action};
use machine::run::Run;
use machine::turn::Turn;

// A buffer that is only read is lent as a `&mut`: behind a `&` of a field the proof would lose what the buffer holds.
fn storage(o: Access, run: Run, regs: &[u64], program: Program, work: &mut Work) -> Turn
    requires { Ready (parts_of program) run (held work.old) }
    ensures kept { Kept work.old work.new }
    ensures steps { StepsAs (parts_of program.entry) (Storage o) run regs.now (held work.old) (held work.new) result }
{
    let memory = &mut *work.memory;
    let readable = &mut *work.readable;
    let writable = &mut *work.writable;
    ops_storage::access(
        o,
        run,
        regs,
        program.lent,
        program.reads,
        program.writes,
        program.store,
        program.loader,
        memory,
        work.changes,
        work.fetched,
        readable,
        writable,
        work.paid,
    )
}

fn hash(x: u8, y: u8, z: u8, run: Run, regs: &[u64], program: Program, work: &mut Work) -> Turn
    requires { Ready (parts_of program) run (held work.old) }
    ensures kept { Kept work.old work.new }
    ensures steps { StepsAs (parts_of program.entry) (Hash x y z) run regs.now (held work.old) (held work.new) result }
{
    ops_crypto::hash::hash(
        x,
        y,
        z,
        run,
        regs,
        program.replies,
        program.keyed_reads,
        program.keyed_writes,
        work.memory,
        work.readable,
        work.writable,
    )
}

#[tactic(auto, using(crate::specs::StepLaws::stack_holds))]
pub(crate) fn step(i: Instr, run: Run, regs: &[u64], program: Program, work: &mut Work) -> Turn
    requires { Ready (parts_of program) run (held work.old) }
    ensures kept { Kept work.old work.new }
    ensures steps { Steps (parts_of program.entry) i run regs.now (held work.old) (held work.new) result }
{
    let a = machine::action::action_of(i);
    match a {
        Action::Halt => machine::turn::halt(run),
        Action::Nop => machine::turn::go_on(run),
        Action::Registers => crate::registers::registers(i, run, regs),
        Action::Moves(o) => {
            ops_moves::moves::step(o, run, regs, program.consts, work.memory, work.stack)
        }
        Action::Jumps(o) => ops_moves::jumps::step(o, run, regs, program.starts, work.stack),
        Action::Storage(o) => storage(o, run, regs, program, work),
        Action::Posts(o) => {
            let memory = &mut *work.memory;
            ops_posts::post::post(o, run, regs, memory, work.log)
        }
        Action::Hash(x, y, z) => hash(x, y, z, run, regs, program, work),
        Action::Checks(o) => {
            ops_crypto::check::check(o, run, regs, program.host, program.replies, work.memory)
        }
    }
}
