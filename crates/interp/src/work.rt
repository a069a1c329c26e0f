// The lent buffers that a run writes; the map of starts is not among them, since a run only reads it.
#[derive(Drop)]
pub struct Work<'a> {
    pub memory: &'a mut [u8],
    pub stack: &'a mut [u64],
    pub changes: &'a mut [u8],
    pub fetched: &'a mut [u8],
    pub readable: &'a mut [u8],
    pub writable: &'a mut [u8],
    pub paid: &'a mut [u8],
    pub log: &'a mut [u8],
}
