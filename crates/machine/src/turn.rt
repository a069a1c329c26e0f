// What a turn answers.
ghost use Rattle.std.specs.Prelude.{◌≡◌};
ghost use Rattle.machine.specs.Does.{goes, sets, stops, halts};

use crate::run::Run;
use state::fault::Fault;
use words::refusal::Refusal;

// Two words for two registers, the first put first; a register past the last is none.
#[derive(Clone, Copy)]
pub struct Put {
    pub d: u8,
    pub v: u64,
    pub e: u8,
    pub w: u64,
}

// The run after a turn and what goes into its registers; its fault's number, or 0; whether it halts.
// A number: an Option of `Fault` is a few bytes in one word, and a test of one of them after each instruction costs up to a fifth of a run.
#[derive(Clone, Copy)]
pub struct Turn {
    pub run: Run,
    pub put: Put,
    pub fault: u64,
    pub halted: bool,
}

// Goes on, with a word put into a register.
pub fn set(run: Run, d: u8, v: u64) -> Turn
    ensures { result ≡ sets run d v }
{
    Turn {
        run: run.by_fields(),
        put: Put { d, v, e: 255, w: 0 },
        fault: 0,
        halted: false,
    }
}

// Goes on.
pub fn go_on(run: Run) -> Turn
    ensures { result ≡ goes run }
{
    set(run, 255, 0)
}

// Stops with a fault.
pub fn stop(run: Run, fault: Fault) -> Turn
    ensures { result ≡ stops run fault }
{
    let mut t = go_on(run);
    t.fault = Refusal::from(fault).number;
    t
}

// Halts.
pub fn halt(run: Run) -> Turn
    ensures { result ≡ halts run }
{
    let mut t = go_on(run);
    t.halted = true;
    t
}
