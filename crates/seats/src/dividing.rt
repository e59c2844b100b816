// Shares by division: how many of 2^24 parts of their sum three numbers have, and what is left over.
ghost use Rattle.std.specs.Prelude.{◌≡◌, ◌+◌, ◌*◌, ◌<◌, ◌≤◌};
ghost use Rattle.golden.specs.Decisions.{Decides};
ghost use Rattle.seats.specs.Means.Near.{Away, Divides};

// The margin: more than all errors of near numbers together.
pub const MARGIN: u64 = 536870912;

// How many parts, and what is left.
#[derive(Clone, Copy)]
pub struct Quotient {
    pub whole: u64,
    pub rest: u64,
}

// Those of three numbers and their sum.
#[derive(Clone, Copy)]
pub struct Divided {
    pub sum: u64,
    pub q1: Quotient,
    pub q2: Quotient,
    pub q3: Quotient,
}

// By two divisions of twelve bits each.
fn divide(x: u64, s: u64) -> Quotient
    requires { (x ≤ s) × (0 < s) × (s < 4503599627370496) }
    ensures { (16777216 * x ≡ result.whole * s + result.rest) × (result.rest < s) }
{
    let a = 4096 * x;
    let b = 4096 * (a % s);
    Quotient {
        whole: 4096 * (a / s) + b / s,
        rest: b % s,
    }
}

// Those of the third, from the other two, which together have f parts, with t left.
fn third(f: u64, t: u64, s: u64) -> Quotient
    requires { (t < s + s) × (s < 4503599627370496) × (f * s + t ≤ 16777216 * s) }
    ensures { ((f + result.whole) * s + (t + result.rest) ≡ 16777216 * s) × (result.rest ≤ s) }
{
    if s < t {
        return Quotient {
            whole: 16777214 - f,
            rest: 2 * s - t,
        };
    }
    if t == 0 {
        return Quotient {
            whole: 16777216 - f,
            rest: 0,
        };
    }
    Quotient {
        whole: 16777215 - f,
        rest: s - t,
    }
}

// Those of x1, x2 and what is left of the sum.
pub fn divide_three(x1: u64, x2: u64, sum: u64) -> Divided
    requires { (x1 + x2 ≤ sum) × (0 < sum) × (sum < 4503599627370496) }
    ensures { (result.sum ≡ sum) × Divides x1 x2 result }
{
    let q1 = divide(x1, sum);
    let q2 = divide(x2, sum);
    let q3 = third(q1.whole + q2.whole, q1.rest + q2.rest, sum);
    Divided { sum, q1, q2, q3 }
}

// Whether a rest is away from both ends.
pub fn is_clear(rest: u64, s: u64) -> bool
    requires { (rest ≤ s) × (s < 4503599627370496) }
    ensures { Decides result (Away s rest) }
{
    MARGIN <= rest && rest + MARGIN <= s
}

pub fn all_clear(a: u64, b: u64, c: u64, s: u64) -> bool
    requires { (a ≤ s) × (b ≤ s) × (c ≤ s) × (s < 4503599627370496) }
    ensures { Decides result (Away s a × Away s b × Away s c) }
{
    is_clear(a, s) && is_clear(b, s) && is_clear(c, s)
}
