// What the steps of a run are lent.
use keys::counts::Counts;
use keys::look::TableRows;

// What they read: the rows of store and loader, four lists of twelve slots (reads, writes, keyed reads, keyed writes), and the bytes
// of store and loader.
#[derive(Clone, Copy)]
pub struct Lent<'a> {
    pub rows: TableRows,
    pub slots: &'a [u8; 384],
    pub store: &'a [u8],
    pub loader: &'a [u8],
}

// What they write: small tables, mostly no whole number of rows, so that each runs out of room, and how many rows each has.
#[derive(Drop)]
pub struct Tables {
    pub counts: Counts,
    pub changes: [u8; 490],
    pub fetched: [u8; 410],
    pub readable: [u8; 330],
    pub writable: [u8; 256],
    pub paid: [u8; 130],
}
