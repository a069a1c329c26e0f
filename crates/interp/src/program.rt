// What a call is given, and what its run only reads.
use keys::look::TableRows;
use machine::host::Host;
use opening::open::Call;

// The call, and the bytes that are lent with it to be read.
#[derive(Clone, Copy)]
pub struct Input<'a> {
    pub call: Call,
    pub container: &'a [u8],
    pub store: &'a [u8],
    pub loader: &'a [u8],
    pub replies: &'a [u8],
    pub preload: &'a [u8],
}

// The code, the entry's constants and slots, the lent tables and replies, the map of starts; the rows of the tables, the host's numbers.
#[derive(Clone, Copy)]
pub struct Program<'a> {
    pub code: &'a [u8],
    pub consts: &'a [u8],
    pub reads: &'a [u8],
    pub writes: &'a [u8],
    pub keyed_reads: &'a [u8],
    pub keyed_writes: &'a [u8],
    pub store: &'a [u8],
    pub loader: &'a [u8],
    pub replies: &'a [u8],
    pub starts: &'a [u8],
    pub lent: TableRows,
    pub host: Host,
}
