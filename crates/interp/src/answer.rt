// What a call answers.
ghost use Rattle.std.specs.Prelude.{◌≡◌};
ghost use Rattle.interp.specs.Call.{refused_as};

use state::regs::RegFile;
use words::refusal::Refusal;

// Document 01's number and argument, 0 for a halt; what a run fetched and used; the rows fetched and changed, the bytes of the log, the registers.
#[derive(Clone, Copy)]
pub struct Answer {
    pub end: Refusal,
    pub fetches: u64,
    pub used: u64,
    pub fetched: u64,
    pub changes: u64,
    pub log: u64,
    pub regs: RegFile,
}

// Zero past how it ended and its fetches.
pub fn refused(end: Refusal, fetches: u64) -> Answer
    ensures { result ≡ refused_as end fetches }
{
    Answer {
        end,
        fetches,
        used: 0,
        fetched: 0,
        changes: 0,
        log: 0,
        regs: RegFile::new(),
    }
}
