// Fetching an instruction: what decode said of it, its base price, the next address.
ghost use Rattle.std.specs.Prelude.{◌≡◌, ◌+◌, ◌<◌, Ok};
ghost use Rattle.interp.specs.Fetched.{instruction_in, DecodedAt, Onward, Fetches};

use isa::codec::DecodeError;
use isa::instr::Instr;
use machine::run::Run;
use state::fault::Fault;

// The price is paid and the next address is below 2^32.
fn onward(i: Instr, n: usize, run: Run) -> Result<Run, Fault>
    requires { run.pc + n < 18446744073709551616 }
    ensures { Onward (Ok (i, n)) run result }
{
    let Some(paid) = run.pay(i.opcode().price()) else {
        return Err(Fault::OutOfMeter);
    };
    let next = run.pc + n as u64;
    if 4294967296 <= next {
        return Err(Fault::BadJump);
    }
    let mut at = paid;
    at.pc = next;
    Ok(at)
}

// What was decoded at the run's place. It counts as fetched whatever comes of it.
pub(crate) fn fetch(d: Result<(Instr, usize), DecodeError>, run: Run) -> Result<Run, Fault>
    requires { (run.fetches < run.meter.used) × DecodedAt d run }
    ensures { Fetches d run result }
{
    let (i, n) = d?;
    let mut counted = run;
    counted.fetches = run.fetches + 1;
    onward(i, n, counted)
}

// The instruction that was decoded, taken out where it is stepped with: in `fetch`'s answer it would go through memory once more.
pub fn instruction(d: Result<(Instr, usize), DecodeError>) -> Instr
    ensures { result ≡ instruction_in d }
{
    match d {
        Ok((i, _)) => i,
        Err(_) => Instr::Halt,
    }
}
