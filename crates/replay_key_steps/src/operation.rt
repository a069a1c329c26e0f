// What a record asks for.
#[derive(Clone, Copy, Debug, PartialEq, Eq)]
pub enum Operation {
    Load,
    Store,
    Authorise,
    Tables,
}

// Any other byte asks for the tables.
impl From<u8> for Operation {
    fn from(byte: u8) -> Operation {
        match byte {
            0 => Operation::Load,
            1 => Operation::Store,
            2 => Operation::Authorise,
            _ => Operation::Tables,
        }
    }
}
