// What the host supplies.

// The genesis selector, and for either scheme the bytes that a signature's base price covers (SIGNED_BYTES).
#[derive(Clone, Copy)]
pub struct Host {
    pub genesis: u32,
    pub ml_signed: u64,
    pub slh_signed: u64,
}
