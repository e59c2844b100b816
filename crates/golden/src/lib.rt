// Numbers u + vφ, with φ the positive root of φ² = φ + 1: their sign, decided exactly, and the whole number t for
// drawing. Each function asks that its numbers are small enough for 64 bits; the crates above prove it of theirs.
#![tactic(auto)]

ghost use Rattle.std.specs.Prelude.{◌≡◌, ◌+◌, ◌*◌, ◌/◌, ◌%◌, ◌<◌, ◌≤◌, ◌^◌, pos, neg_ℤ, nat_abs, ◌+ℤ◌, ◌*ℤ◌};
ghost use Rattle.golden.specs.Decisions.{Decides};
ghost use Rattle.golden.specs.Numbers.{Below, golden, ◌+φ◌, negφ};
ghost use Rattle.golden.specs.Order.{NonNeg, w_of};
ghost use Rattle.golden.specs.Drawing.{IsNearest, IsT};

use std::ops::{Add, Sub};

// The number u + vφ.
#[derive(Clone, Copy)]
pub struct Golden {
    pub u: i64,
    pub v: i64,
}

// Whether a is at least b√5. With a' = 5b - 2a and b' = a - 2b, a'² - 5b'² = 5b² - a²: the opposite question of a
// pair less than a quarter as large. So no two large numbers are multiplied, and the calls go no deeper than the
// numbers have pairs of bits.
fn at_least_root_five(a: u64, b: u64) -> bool
    requires { (a < 2 ^ 60) × (b < 2 ^ 60) }
    ensures { Decides result (5 * (b * b) ≤ a * a) }
{
    let a2 = 2 * a;
    let b2 = 2 * b;
    let b5 = 5 * b;
    if a >= b2 + b {
        return true;
    }
    if a <= b2 {
        return false;
    }
    if a2 >= b5 {
        return true;
    }
    !at_least_root_five(b5 - a2, a - b2)
}

// |x|.
pub fn magnitude(x: i64) -> u64
    requires { nat_abs x < 2 ^ 60 }
    ensures { result ≡ nat_abs x }
{
    x.unsigned_abs()
}

fn signed(x: u64) -> i64
    requires { x < 2 ^ 60 }
    ensures { result ≡ pos x }
{
    x as i64
}

// The fraction TOP/BOTTOM is one of Fibonacci's next below φ; HALF is half of BOTTOM.
const TOP: u64 = 1836311903;

const BOTTOM: u64 = 1134903170;

const HALF: u64 = 567451585;

// m·TOP/BOTTOM, rounded to the nearest.
fn times_fraction(m: u64) -> u64
    requires { m ≤ 2 ^ 42 }
    ensures { result ≡ (m * 1836311903 + 567451585) / 1134903170 }
{
    m / BOTTOM * TOP + (m % BOTTOM * TOP + HALF) / BOTTOM
}

// Whether m is clear: m·TOP/BOTTOM is so far below the next middle of two whole numbers that mφ is below it too.
fn is_clear(m: u64) -> bool
    requires { m ≤ 2 ^ 42 }
    ensures { Decides result ((m * 1836311903 + 567451585) % 1134903170 + 2048 ≤ 1134903170) }
{
    (m % BOTTOM * TOP + HALF) % BOTTOM + 2048 <= BOTTOM
}

// The whole number nearest to mφ: by the fraction where m is clear, and else by the sign of 2mφ - (2q + 1).
fn nearest_multiple(m: u64) -> u64
    requires { m ≤ 2 ^ 42 }
    ensures { IsNearest (golden (pos 0) (pos m)) (pos result) }
{
    let q = times_fraction(m);
    if is_clear(m) {
        return q;
    }
    let over = Golden {
        u: -signed(2 * q + 1),
        v: signed(2 * m),
    };
    if over.at_least_zero() {
        return q + 1;
    }
    q
}

impl Add for Golden {
    type Output = Golden;

    ghost can_add = { λ x y. Below (2 ^ 61) x × Below (2 ^ 61) y };

    ghost add_gives = { λ x y r. r ≡ x +φ y };

    fn add(self, y: Golden) -> Golden {
        Golden {
            u: self.u + y.u,
            v: self.v + y.v,
        }
    }
}

impl Sub for Golden {
    type Output = Golden;

    ghost can_sub = { λ x y. Below (2 ^ 61) x × Below (2 ^ 61) y };

    ghost sub_gives = { λ x y r. r ≡ x +φ negφ y };

    fn sub(self, y: Golden) -> Golden {
        Golden {
            u: self.u - y.u,
            v: self.v - y.v,
        }
    }
}

impl Golden {
    // w = 2u + v.
    fn w(self) -> i64
        requires { Below (2 ^ 57) self }
        ensures { result ≡ w_of self }
    {
        2 * self.u + self.v
    }

    // Whether u + vφ is at least 0.
    pub fn at_least_zero(self) -> bool
        requires { Below (2 ^ 57) self }
        ensures { Decides result (NonNeg self) }
    {
        let w = self.w();
        let v = self.v;
        let a = magnitude(w);
        let b = magnitude(v);
        if w < 0 {
            if v < 0 {
                return false;
            }
            return !at_least_root_five(a, b);
        }
        if v < 0 {
            return at_least_root_five(a, b);
        }
        true
    }

    // The whole number nearest to u + vφ: u and the one nearest to |v|φ, with the sign of v.
    fn nearest(self) -> i64
        requires { Below (2 ^ 42 + 1) self }
        ensures { IsNearest self result }
    {
        let n = signed(nearest_multiple(magnitude(self.v)));
        if self.v < 0 { self.u - n } else { self.u + n }
    }

    // The whole number nearest to 65,536·(u + vφ).
    pub fn t(self) -> i64
        requires { Below (2 ^ 26 + 1) self }
        ensures { IsT self result }
    {
        let big = Golden {
            u: 65536 * self.u,
            v: 65536 * self.v,
        };
        big.nearest()
    }
}
