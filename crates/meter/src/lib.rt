// Prices beyond the base price, and the meter that they are charged to.
#![tactic(auto)]

ghost use Rattle.std.specs.Prelude.{◌≡◌, ◌+◌, ◌-◌, ◌*◌, ◌/◌, ◌^◌, min};
ghost use Rattle.meter.specs.Prices.{hash_price, message_price, merkle_price, dispatch_price};
ghost use Rattle.meter.specs.Meter.{charge_of};

pub const DISPATCH: u64 = 4;

pub const CODE_SCAN_PER_BYTE: u64 = 9;

pub const KECCAK_RATE: u64 = 136;

pub const HASH_BLOCK: u64 = 40;

pub const VERIFY_MESSAGE_BLOCK: u64 = 40;

pub const MERKLE_LEVEL: u64 = 50;

pub const MERKLE_HEADER: u64 = 72;

#[derive(Clone, Copy, Debug, PartialEq, Eq)]
pub struct Meter {
    pub used: u64,
    pub limit: u64,
}

// a * b + c, or the largest word.
fn capped(a: u64, b: u64, c: u64) -> u64
    ensures { result ≡ min (a * b + c) (2 ^ 64 - 1) }
{
    let p = words::product::product_plus(a, b, c);
    if p.hi == 0 {
        return p.lo;
    }
    u64::MAX
}

fn keccak_blocks(len: u64) -> u64
    ensures { result ≡ len / 136 + 1 }
{
    len / KECCAK_RATE + 1
}

pub fn hash_variable(len: u64) -> u64
    ensures { result ≡ hash_price len }
{
    HASH_BLOCK * keccak_blocks(len)
}

// The price of a message of b bytes, of which those that are signed are part of the base price.
pub fn message_variable(b: u64, signed: u64) -> u64
    ensures { result ≡ message_price b signed }
{
    VERIFY_MESSAGE_BLOCK * keccak_blocks(b.saturating_sub(signed))
}

pub fn merkle_variable(b: u64) -> u64
    ensures { result ≡ min (merkle_price b) (2 ^ 64 - 1) }
{
    capped(MERKLE_LEVEL, b.saturating_sub(MERKLE_HEADER) / 32, 0)
}

// What opening costs, by the bytes of the code.
pub fn dispatch(code_bytes: u64) -> u64
    ensures { result ≡ min (dispatch_price code_bytes) (2 ^ 64 - 1) }
{
    capped(CODE_SCAN_PER_BYTE, code_bytes, DISPATCH)
}

impl Meter {
    // Pays a price where the limit allows it; no sum is made before that is known.
    pub fn charge(self, price: u64) -> Option<Meter>
        ensures { result ≡ charge_of self price }
    {
        if self.limit < self.used {
            return None;
        }
        if self.limit - self.used < price {
            return None;
        }
        Some(Meter {
            used: self.used + price,
            limit: self.limit,
        })
    }
}
