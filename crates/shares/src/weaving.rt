// The digits of a triangle from the floors of a direction strictly inside it, all at once.
ghost use Rattle.std.specs.Prelude.{◌≡◌, ◌+◌, ◌-◌, ◌*◌, ◌<◌, ◌≤◌, ◌^◌};
ghost use Rattle.shares.specs.Means.Shares.{strict};
ghost use Rattle.shares.specs.Means.Paths.{least_path};
ghost use Rattle.shares.specs.Means.Bits.{spread, low_word, high_word, Whole};

use crate::Floors;

// The lower bits of all digits as one word, and the higher.
#[derive(Clone, Copy)]
struct Bits {
    low: u64,
    high: u64,
}

// The eight bits of a byte, each at an even place.
fn spread_byte(b: u64) -> u64
    requires { b < 256 }
    ensures { result ≡ spread 8 b }
{
    let fours = (b | 16 * b) & 0x0F0F;
    let twos = (fours | 4 * fours) & 0x3333;
    (twos | 2 * twos) & 0x5555
}

// A bit of a digit is the floors' own bit, turned over where the triangle above points down: there the floors' bits
// have an even sum.
fn bits_of(f: Floors) -> Bits
    requires { Whole (2 ^ 24) f }
    ensures { (result.low ≡ low_word 24 f) × (result.high ≡ high_word 24 f) }
{
    let a = f.f1;
    let b = f.f2;
    let c = f.f3;
    let down = (16777215 - (a ^ b ^ c)) / 2;
    let last = c ^ down;
    Bits {
        low: (a ^ down) | last,
        high: (b ^ down) | last,
    }
}

// Eight digits: a lower and a higher bit of each.
fn eight(low: u64, high: u64) -> u64
    requires { (low < 256) × (high < 256) }
    ensures { result ≡ spread 8 low + 2 * spread 8 high }
{
    spread_byte(low) + 2 * spread_byte(high)
}

// The last n digits of a path, at most eight.
fn last_part(n: u64, low: u64, high: u64, v: u64) -> u64
    requires { (n ≤ 8) × (low < 2 ^ n) × (high < 2 ^ n) × (v < 2 ^ (2 * (24 - n))) }
    ensures { result ≡ 2 ^ (2 * n) * v + (spread n low + 2 * spread n high) }
{
    words::power(2 * n) * v + eight(low, high)
}

// Eight digits more.
fn next_part(low: u64, high: u64, v: u64) -> u64
    requires { (low < 256) × (high < 256) × (v < 2 ^ 32) }
    ensures { result ≡ 65536 * v + (spread 8 low + 2 * spread 8 high) }
{
    65536 * v + eight(low, high)
}

// From the path v of a triangle, n digits further down, eight at a time.
fn descend(n: u64, low: u64, high: u64, v: u64) -> u64
    requires { (n ≤ 24) × (low < 2 ^ n) × (high < 2 ^ n) × (v < 2 ^ (2 * (24 - n))) }
    ensures { result ≡ 2 ^ (2 * n) * v + (spread n low + 2 * spread n high) }
{
    if n <= 8 {
        return last_part(n, low, high, v);
    }
    let part = words::power(n - 8);
    descend(
        n - 8,
        low % part,
        high % part,
        next_part(low / part, high / part, v),
    )
}

// The path of the first n of a triangle's 24 digits.
pub fn path(n: u64, f: Floors) -> u64
    requires { (n ≤ 24) × Whole (2 ^ 24) f }
    ensures { result ≡ least_path n 16777216 f strict 0 }
{
    let all = bits_of(f);
    let part = words::power(24 - n);
    descend(n, all.low / part, all.high / part, 0)
}
