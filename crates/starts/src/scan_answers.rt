// What a reading of the code answers.
use isa::codec::DecodeError;

// Where a reading of the code stopped before its end.
#[derive(Clone, Copy, Debug, PartialEq, Eq)]
pub enum ScanError {
    Undecodable(usize, DecodeError),
    BadConst(u64),
}
