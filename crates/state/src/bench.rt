// The bench step: single instructions on a register file that is lent.
ghost use Rattle.std.specs.Prelude.{◌≡◌};
ghost use Rattle.state.specs.Bench.{bench_of};

use super::fault::Fault;
use super::regs::{RegFile, Stepped};
use isa::codec::DecodeError;
use isa::instr::Instr;

// The file after a register operation, or the file as it was and the refusal.
pub fn bench_by_value(file: RegFile, i: Instr) -> Stepped
    ensures { result ≡ bench_of i file }
{
    if !i.opcode().is_register_op() {
        return Stepped {
            file,
            fault: Some(Fault::NotRegister),
        };
    }
    if let Some(b) = isa::codec::bad_register(i) {
        return Stepped {
            file,
            fault: Some(Fault::Decode(DecodeError::BadRegister(b))),
        };
    }
    file.step(i)
}

// The same on a file that is lent: it holds what the operation hands back, or stays as it was where the step is refused.
pub fn bench_step(file: &mut RegFile, i: Instr) -> Option<Fault>
    ensures { record { file = file.exit.now; fault = result } ≡ bench_of i file.entry.now }
{
    let f = *file;
    let s = bench_by_value(f, i);
    *file = s.file;
    s.fault
}

// The bench step for callers that have a file by value: a local is lent to it.
pub fn bench_local(file: RegFile, i: Instr) -> Stepped
    ensures { result ≡ bench_of i file }
{
    let mut lent = file;
    let fault = bench_step(&mut lent, i);
    Stepped { file: lent, fault }
}
