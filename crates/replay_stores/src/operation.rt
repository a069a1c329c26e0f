// What a record asks for.
#[derive(Clone, Copy, Debug, PartialEq, Eq)]
pub enum Operation {
    Put,
    Get,
    Add,
    Has,
    Transfer,
    Event,
    KnownTransfer,
    Mint,
    KnownMint,
    Counts,
}

// Any other byte asks for the counts.
impl From<u8> for Operation {
    fn from(byte: u8) -> Operation {
        match byte {
            0 => Operation::Put,
            1 => Operation::Get,
            2 => Operation::Add,
            3 => Operation::Has,
            4 => Operation::Transfer,
            5 => Operation::Event,
            6 => Operation::KnownTransfer,
            7 => Operation::Mint,
            8 => Operation::KnownMint,
            _ => Operation::Counts,
        }
    }
}
