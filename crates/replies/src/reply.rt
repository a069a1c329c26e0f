// A row of replies: outcome 1, register 1, value 8, length 1, offset 4, bytes 32, one zero.
ghost use Rattle.std.specs.Prelude.{◌≡◌, length, drop};
ghost use Rattle.replies.specs.Reply.{reply_of, zeros, good_reply, good_register, good_region};

#[derive(Clone, Copy)]
pub struct Reply {
    pub outcome: u8,
    pub register: u8,
    pub value: u64,
    pub length: usize,
    pub offset: usize,
    pub bytes: [u8; 32],
}

// Whether every byte is zero. As in keys: one line over std's `all`, each under its crate's definition.
fn all_zero(s: &[u8]) -> bool
    ensures { result ≡ zeros s.now }
{
    s.iter().all(|&b| b == 0)
}

// Register 0 to 15; or none, and then no value.
#[tactic(auto, unfolding(crate::specs::Reply::good_register))]
fn register_fits(register: u8, value: u64) -> bool
    ensures { result ≡ good_register register value }
{
    register < 16 || (register == 255 && value == 0)
}

// At most 32 bytes, within the memory; at offset 0 if there are none.
#[tactic(auto, unfolding(crate::specs::Reply::good_region))]
fn region_fits(count: usize, offset: usize) -> bool
    ensures { result ≡ good_region count offset }
{
    count <= 32 && offset <= 65536 - count && (count > 0 || offset == 0)
}

// What a row says.
pub(crate) fn parse(row: &[u8]) -> Reply
    requires { length row.now ≡ 48 }
    ensures { result ≡ reply_of row.now }
{
    let mut bytes = [0u8; 32];
    bytes.copy_from_slice(&row[15..47]);
    Reply {
        outcome: row[0],
        register: row[1],
        value: words::bytes::read(row, 2, 8),
        length: row[10] as usize,
        offset: words::bytes::read(row, 11, 4) as usize,
        bytes,
    }
}

// Whether a row keeps to the layout.
pub(crate) fn good(row: &[u8]) -> bool
    requires { length row.now ≡ 48 }
    ensures { result ≡ good_reply row.now }
{
    let r = parse(row);
    r.outcome <= 14
        && register_fits(r.register, r.value)
        && region_fits(r.length, r.offset)
        && all_zero(&row[r.length + 15..])
        && (r.outcome == 0 || (r.register == 255 && all_zero(&row[2..])))
}
