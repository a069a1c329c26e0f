// What a run keeps by value; its registers stand apart, and its tables and log in lent bytes.
ghost use Rattle.std.specs.Prelude.{◌≡◌};
ghost use Rattle.machine.specs.Does.{paid_by};

use keys::counts::Counts;
use meter::Meter;

#[derive(Clone, Copy)]
pub struct Run {
    pub pc: u64,
    pub depth: usize,
    pub counts: Counts,
    // Where the effect log ends, its events, and the bytes that its effects count.
    pub log: usize,
    pub events: u64,
    pub posted: u64,
    // The bytes that authorisations count.
    pub keyed: u64,
    // The replies that are used up.
    pub replies: usize,
    pub meter: Meter,
    pub fetches: u64,
}

impl Run {
    // The same run, put together from its fields: one that is copied whole goes through memory in every turn.
    pub fn by_fields(self) -> Run
        ensures { result ≡ self }
    {
        let c = self.counts;
        let m = self.meter;
        Run {
            pc: self.pc,
            depth: self.depth,
            counts: Counts {
                changes: c.changes,
                fetched: c.fetched,
                reads: c.reads,
                writes: c.writes,
                paid: c.paid,
            },
            log: self.log,
            events: self.events,
            posted: self.posted,
            keyed: self.keyed,
            replies: self.replies,
            meter: Meter {
                used: m.used,
                limit: m.limit,
            },
            fetches: self.fetches,
        }
    }

    // The run with a price paid, where the limit allows it.
    #[tactic(auto, using(crate::specs::ToldLaws::paid_done, crate::specs::ToldLaws::paid_out))]
    pub fn pay(self, price: u64) -> Option<Run>
        ensures { result ≡ paid_by self price }
    {
        let meter = self.meter.charge(price)?;
        Some(Run { meter, ..self })
    }
}
