// The whole numbers t of exact coordinates, and drawn points.
ghost use Rattle.std.specs.Prelude.{◌*◌, ◌<◌, ◌≤◌, ◌^◌, nat_abs};
ghost use Rattle.filing.specs.Fractions.{IsFraction};
ghost use Rattle.filing.specs.Drawing.{AreTicks, IsPoint};
ghost use Rattle.filing.specs.Means.Places.{Small};

use crate::{Coordinates, Point, Ticks};

pub fn ticks_at(c: Coordinates) -> Ticks
    requires { Small c }
    ensures { AreTicks c result }
{
    Ticks {
        x: c.x.t(),
        y: c.y.t(),
        z: c.z.t(),
    }
}

// t / (65,536·2^n), exactly: t has at most 53 bits, and the divisor is a power of two.
fn fraction(t: i64, n: u64) -> f64
    requires { (nat_abs t < 2 ^ 53) × (n ≤ 24) }
    ensures { IsFraction result t (65536 * 2 ^ n) }
{
    let den = 65536 * words::power(n);
    (t as f64) / (den as f64)
}

pub fn point_at(n: u64, c: Coordinates) -> Point
    requires { (n ≤ 24) × Small c }
    ensures { IsPoint n c result }
{
    let t = ticks_at(c);
    Point {
        x: fraction(t.x, n),
        y: fraction(t.y, n),
        z: fraction(t.z, n),
    }
}
