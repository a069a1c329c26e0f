// The run: turn after turn, the registers a local of the loop.
ghost use Rattle.std.specs.Prelude.{◌≡◌};
ghost use Rattle.machine.specs.Does.{puts};
ghost use Rattle.interp.specs.Runs.{Starts, Runs};
ghost use Rattle.interp.specs.Held.{parts_of, held, Kept};

use crate::program::Program;
use crate::work::Work;
use machine::run::Run;
use machine::turn::Put;
use state::regs::RegFile;
use words::refusal::Refusal;

// How a run ended, 0 for a halt; what was fetched, and the state it ended in.
#[derive(Clone, Copy)]
pub struct Ended {
    pub end: Refusal,
    pub fetches: u64,
    pub run: Run,
    pub file: RegFile,
}

// The registers with a turn's two words put in.
fn put(file: RegFile, p: Put) -> RegFile
    ensures { result ≡ puts p file }
{
    let f = file.set_reg(p.d, p.v);
    f.set_reg(p.e, p.w)
}

#[tactic(auto, using(crate::specs::RunLaws::fetch_fits))]
pub(crate) fn exec(start: Run, program: Program, work: &mut Work) -> Ended
    requires { Starts (parts_of program) start (held work.old) }
    ensures kept { Kept work.old work.new }
    ensures runs { Runs (parts_of program.entry) start (held work.old) result (held work.new) }
{
    let mut file = RegFile::new();
    let mut run = start;
    // No index: a run ends where it halts or faults.
    loop {
        let d = isa::codec::decode(program.code, run.pc as usize);
        match crate::fetch::fetch(d, run) {
            Err(fault) => {
                return Ended {
                    end: Refusal::from(fault),
                    fetches: run.fetches + 1,
                    run,
                    file,
                };
            }
            Ok(q) => {
                let i = crate::fetch::instruction(d);
                let t = crate::step::step(i, q, &file.r, program, work);
                if t.fault != 0 {
                    return Ended {
                        end: Refusal::numbered(t.fault),
                        fetches: q.fetches,
                        run: q,
                        file,
                    };
                }
                file = put(file, t.put);
                run = t.run;
                if t.halted {
                    return Ended {
                        end: Refusal::numbered(0),
                        fetches: run.fetches,
                        run,
                        file,
                    };
                }
            }
        }
    }
}
