// The product of two words, which has two words.
ghost use Rattle.std.specs.Prelude.{◌≡◌, ◌+◌, ◌*◌, ◌/◌, ◌%◌, ◌^◌, ◌<◌};
ghost use Rattle.words.specs.Wide.{wide};

#[derive(Clone, Copy)]
pub struct Wide {
    pub hi: u64,
    pub lo: u64,
}

// One more than the largest half word.
pub const HALF: u64 = 0x1_0000_0000;

// a * b + c + d of half words: a word holds it.
fn column(a: u64, b: u64, c: u64, d: u64) -> u64
    requires { (a < 2 ^ 32) × (b < 2 ^ 32) × (c < 2 ^ 32) × (d < 2 ^ 32) }
    ensures { result ≡ a * b + c + d }
{
    a * b + c + d
}

// x * y + z: two words hold it. A column for each product of two halves, and each hands its upper
// half on.
pub fn product_plus(x: u64, y: u64, z: u64) -> Wide
    ensures { wide result ≡ x * y + z }
{
    let low = column(x % HALF, y % HALF, z % HALF, 0);
    let mid = column(x / HALF, y % HALF, z / HALF, low / HALF);
    let side = column(x % HALF, y / HALF, mid % HALF, 0);
    let hi = column(x / HALF, y / HALF, mid / HALF, side / HALF);
    let lo = side % HALF * HALF + low % HALF;
    Wide { hi, lo }
}

// x * y.
pub fn product(x: u64, y: u64) -> Wide
    ensures { wide result ≡ x * y }
{
    product_plus(x, y, 0)
}

// x * y, modulo 2^64.
pub fn wrapping_mul(x: u64, y: u64) -> u64
    ensures { result ≡ x * y % 2 ^ 64 }
{
    let p = product(x, y);
    p.lo
}

// The upper word of x * y.
pub fn high_product(x: u64, y: u64) -> u64
    ensures { result ≡ x * y / 2 ^ 64 }
{
    let p = product(x, y);
    p.hi
}
