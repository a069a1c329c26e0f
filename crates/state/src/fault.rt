// Why a run stops (document 01, Numbers returned).
ghost use Rattle.std.specs.Prelude.{◌≡◌};
ghost use Rattle.state.specs.Faults.{fault_refusal};
ghost use Rattle.state.specs.declared.fault.Fault.TheVariants.{Decode};

use isa::codec::DecodeError;
use words::refusal::Refusal;

// The Rust's faults, and after them what this machine alone refuses. A reply tells its fault by its number.
#[derive(Clone, Copy, Debug, PartialEq, Eq)]
pub enum Fault {
    OutOfMeter,
    Overflow,
    DivByZero,
    StackOverflow,
    StackUnderflow,
    BadMemory,
    BadJump,
    BadConst,
    UnknownSelector,
    EffectsTooLarge,
    UndeclaredSlot,
    Malformed,
    Decode(DecodeError),
    BadBuffer,
    BadTable,
    BadReply,
    NoReply,
    NoRoom,
    NotRegister,
    Told(u8),
}

impl From<DecodeError> for Fault {
    ghost from_gives = { λ e f. f ≡ Decode e };

    fn from(e: DecodeError) -> Fault {
        Fault::Decode(e)
    }
}

impl From<Fault> for Refusal {
    ghost from_gives = { λ f r. r ≡ fault_refusal f };

    fn from(f: Fault) -> Refusal {
        match f {
            Fault::OutOfMeter => Refusal::numbered(1),
            Fault::Overflow => Refusal::numbered(2),
            Fault::DivByZero => Refusal::numbered(3),
            Fault::StackOverflow => Refusal::numbered(4),
            Fault::StackUnderflow => Refusal::numbered(5),
            Fault::BadMemory => Refusal::numbered(6),
            Fault::BadJump => Refusal::numbered(7),
            Fault::BadConst => Refusal::numbered(8),
            Fault::UnknownSelector => Refusal::numbered(9),
            Fault::EffectsTooLarge => Refusal::numbered(11),
            Fault::UndeclaredSlot => Refusal::numbered(12),
            Fault::Malformed => Refusal::numbered(14),
            Fault::Decode(e) => Refusal::from(e),
            Fault::BadBuffer => Refusal::numbered(44),
            Fault::BadTable => Refusal::numbered(45),
            Fault::BadReply => Refusal::numbered(46),
            Fault::NoReply => Refusal::numbered(47),
            Fault::NoRoom => Refusal::numbered(48),
            Fault::NotRegister => Refusal::numbered(50),
            Fault::Told(n) => Refusal::numbered(n as u64),
        }
    }
}
