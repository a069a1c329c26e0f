// A refusal or a fault as document 01 numbers it.
ghost use Rattle.std.specs.Prelude.{◌≡◌};
ghost use Rattle.words.specs.Refusals.{refusal};

#[derive(Clone, Copy, Debug, PartialEq, Eq)]
pub struct Refusal {
    pub number: u64,
    pub argument: u64,
}

impl Refusal {
    // One that has no argument.
    pub fn numbered(number: u64) -> Refusal
        ensures { result ≡ refusal number 0 }
    {
        Refusal {
            number,
            argument: 0,
        }
    }
}
