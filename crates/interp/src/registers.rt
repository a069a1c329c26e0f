// Register operations as turns.
ghost use Rattle.std.specs.Prelude.{◌≡◌, false};
ghost use Rattle.interp.specs.Operated.{Operates};

use isa::instr::Instr;
use machine::run::Run;
use machine::turn::{Put, Turn};
use state::regs::Outcome;
use words::product::Wide;

// Goes on, with two words put into two registers, the low one first.
fn set_wide(run: Run, lo: u8, hi: u8, w: Wide) -> Turn
    ensures { result ≡ record { run = run; put = record { d = lo; v = w.lo; e = hi; w = w.hi }; fault = 0; halted = false } }
{
    Turn {
        run,
        put: Put {
            d: lo,
            v: w.lo,
            e: hi,
            w: w.hi,
        },
        fault: 0,
        halted: false,
    }
}

pub fn registers(i: Instr, run: Run, regs: &[u64]) -> Turn
    ensures { Operates i run regs.now result }
{
    match state::regs::operate(regs, i) {
        Ok(Outcome::Put(d, v)) => machine::turn::set(run, d, v),
        Ok(Outcome::PutWide(lo, hi, w)) => set_wide(run, lo, hi, w),
        Err(fault) => machine::turn::stop(run, fault),
    }
}
