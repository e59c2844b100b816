// The triangle of a path, as Up or Down with its floor: from the bits of all digits at once.
ghost use Rattle.std.specs.Prelude.{◌≡◌, ◌*◌, ◌/◌, ◌^◌, ◌<◌, ◌≤◌};
ghost use Rattle.std.specs.Int.Bits.{bit_xor};
ghost use Rattle.net.specs.Means.States.{state_of};
ghost use Rattle.net.specs.Means.Paths.{digits_of};
ghost use Rattle.net.specs.Means.Gathers.{gather, low_bit};

use net::State;

// The lower bits of all digits of a path, together.
fn gathered(v: u64) -> u64
    ensures { result ≡ gather low_bit 32 v }
{
    let a = v & 0x5555_5555_5555_5555;
    let b = (a | (a / 2)) & 0x3333_3333_3333_3333;
    let c = (b | (b / 4)) & 0x0F0F_0F0F_0F0F_0F0F;
    let d = (c | (c / 16)) & 0x00FF_00FF_00FF_00FF;
    let e = (d | (d / 256)) & 0x0000_FFFF_0000_FFFF;
    (e | (e / 65536)) & 0xFFFF_FFFF
}

// Each bit summed with all bits above it: the one number whose bits differ from the next above just where z has 1.
fn parities(z: u64) -> u64
    requires { z < 2 ^ 32 }
    ensures { bit_xor result (result / 2) ≡ z }
{
    let a = z ^ (z / 2);
    let b = a ^ (a / 4);
    let c = b ^ (b / 16);
    let d = c ^ (c / 256);
    d ^ (d / 65536)
}

// The triangle of the path v of n digits. A floor's bit is whether the digit is that corner's, turned over where the
// triangle above points down; and a triangle points down where the number of zeros so far is odd.
pub fn state_of(n: u64, v: u64) -> State
    requires { (n ≤ 24) × (v < 2 ^ (2 * n)) }
    ensures { result ≡ state_of (digits_of n v) }
{
    let low = gathered(v);
    let high = gathered(v / 2);
    let both = low & high;
    let down = parities(words::power(n) - 1 - (low | high));
    let above = down / 2;
    let x = low ^ both ^ above;
    let y = high ^ both ^ above;
    let z = both ^ above;
    if down % 2 == 0 {
        State::Up(x, y, z)
    } else {
        State::Down(x, y, z)
    }
}
