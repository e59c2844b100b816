// The descent by floors and gaps: the digits of the least triangle that holds a direction.
ghost use Rattle.std.specs.Prelude.{◌≡◌};
ghost use Prim.Native.Nat.{◌+◌, ◌-◌, ◌*◌, ◌/◌, ◌^◌, ◌<◌, ◌≤◌};
ghost use Rattle.shares.specs.Means.Shares.{floors, gaps};
ghost use Rattle.shares.specs.Means.Paths.{in_child, least_digit, least_path};
ghost use Rattle.shares.specs.Means.WalkWords.{Fair};

use crate::{Floors, Gaps};

// A child: its digit, and the floors in it. The gaps stay.
#[derive(Clone, Copy)]
pub struct Child {
    pub digit: u64,
    pub floors: Floors,
}

// The least child that holds, where an edge has 2h parts and one of the child h.
pub fn least_child(h: u64, f: Floors, g: Gaps) -> Child
    requires { (f.f1 ≤ 16777216) × (f.f2 ≤ 16777216) × (f.f3 ≤ 16777216) × (g.g1 ≤ 1) × (g.g2 ≤ 1) × (g.g3 ≤ 1) }
    ensures { (result.digit ≡ least_digit h f g) × (result.floors ≡ in_child h result.digit f g) }
{
    let a = f.f1 + g.g1;
    let b = f.f2 + g.g2;
    let c = f.f3 + g.g3;
    if h < a {
        return Child {
            digit: 1,
            floors: Floors { f1: f.f1 - h, ..f },
        };
    }
    if h < b {
        return Child {
            digit: 2,
            floors: Floors { f2: f.f2 - h, ..f },
        };
    }
    if h < c {
        return Child {
            digit: 3,
            floors: Floors { f3: f.f3 - h, ..f },
        };
    }
    Child {
        digit: 0,
        floors: Floors {
            f1: h - a,
            f2: h - b,
            f3: h - c,
        },
    }
}

// From the path v of a triangle whose edge has p parts, n digits further down by the least child each time. (The floors
// and gaps are plain numbers here, which stay in registers: as Floors and Gaps they took 23 instructions a digit more.)
pub fn descend(n: u64, p: u64, f1: u64, f2: u64, f3: u64, g1: u64, g2: u64, g3: u64, v: u64) -> u64
    requires { (n ≤ 24) × (p ≤ 16777216) × (f1 ≤ 16777216) × (f2 ≤ 16777216) × (f3 ≤ 16777216)
        × (g1 ≤ 1) × (g2 ≤ 1) × (g3 ≤ 1) × (v < 2 ^ (2 * (24 - n))) }
    ensures { result ≡ least_path n p (floors f1 f2 f3) (gaps g1 g2 g3) v }
{
    if n == 0 {
        return v;
    }
    let h = p / 2;
    let c = least_child(h, Floors { f1, f2, f3 }, Gaps { g1, g2, g3 });
    descend(
        n - 1,
        h,
        c.floors.f1,
        c.floors.f2,
        c.floors.f3,
        g1,
        g2,
        g3,
        4 * v + c.digit,
    )
}

// Into a corner every digit is the corner's: n of them below the path v.
fn into_corner(n: u64, digit: u64, v: u64) -> u64
    requires { (n ≤ 24) × (digit < 4) × (v < 2 ^ (2 * (24 - n))) }
    ensures { result ≡ 2 ^ (2 * n) * v + digit * ((2 ^ (2 * n) - 1) / 3) }
{
    let all = words::power(2 * n);
    all * v + digit * ((all - 1) / 3)
}

// The same as `descend`, but at once where a direction stands at a corner: one share is there the whole sum.
pub fn descend_straight(n: u64, p: u64, f: Floors, g: Gaps, v: u64) -> u64
    requires { (n ≤ 24)
        × (p ≤ 16777216)
        × ((f.f1 ≤ 16777216) × (f.f2 ≤ 16777216) × (f.f3 ≤ 16777216))
        × ((g.g1 ≤ 1) × (g.g2 ≤ 1) × (g.g3 ≤ 1))
        × (v < 2 ^ (2 * (24 - n)))
        × ((k : Prim.Native.Nat.ℕ) × (p ≡ 2 ^ (n + k)))
        × Fair p f g }
    ensures { result ≡ least_path n p f g v }
{
    if f.f1 == p {
        return into_corner(n, 1, v);
    }
    if f.f2 == p {
        return into_corner(n, 2, v);
    }
    if f.f3 == p {
        return into_corner(n, 3, v);
    }
    descend(n, p, f.f1, f.f2, f.f3, g.g1, g.g2, g.g3, v)
}
