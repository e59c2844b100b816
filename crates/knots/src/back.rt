// The way back from twelve weights: the side they lie in, and a triangle there that has the corner.
ghost use Rattle.std.specs.Prelude.{◌≡◌, false, ◌+◌, ◌*◌, ◌^◌, ◌<◌, ◌≤◌, eqb, length, take};
ghost use Rattle.net.specs.Sides.{IsSide, OneToThree};
ghost use Rattle.net.specs.Division.{sum, corner_of};
ghost use Rattle.net.specs.Refusals.{on_side};
ghost use Rattle.net.specs.Means.Paths.{digits_of};
ghost use Rattle.net.specs.Means.Spreads.{spread, point_in, SideFor};

use net::{Corner, Point, State, seams};

// Whether the twelve weights add to the total, exactly: a weight that is more than what is left of it ends the sum.
pub fn adds_to(weights: &[u64], total: u64) -> bool
    requires { (12 ≤ length weights.now) × (total < 2 ^ 63) }
    ensures { result ≡ eqb (sum (take 12 weights.now)) total }
{
    let mut left = total;
    for x in &weights[..12] {
        if left < *x {
            return false;
        }
        left -= *x;
    }
    left == 0
}

// The weights at the three corners of the side s.
pub fn point_on(weights: &[u64], s: u64) -> Point
    requires { (12 ≤ length weights.now) × IsSide s }
    ensures { result ≡ point_in s (take 12 weights.now) }
{
    let a = seams::corner_vertex(s, 1) as usize;
    let b = seams::corner_vertex(s, 2) as usize;
    let c = seams::corner_vertex(s, 3) as usize;
    Point {
        w1: weights[a],
        w2: weights[b],
        w3: weights[c],
    }
}

// Whether the side s has all vertices with weight: where the weights add to the total, all of it stands on that side.
pub fn lies_on(weights: &[u64], total: u64, s: u64) -> bool
    requires { (12 ≤ length weights.now) × (total < 2 ^ 60) × (sum (take 12 weights.now) ≡ total) × IsSide s }
    ensures { result ≡ on_side s 0 (take 12 weights.now) }
{
    let p = point_on(weights, s);
    p.w1 + p.w2 + p.w3 == total
}

// A side that has all vertices with weight.
pub fn side_of(weights: &[u64], total: u64) -> Option<u64>
    requires { (12 ≤ length weights.now) × (total < 2 ^ 60) × (sum (take 12 weights.now) ≡ total) }
    ensures { SideFor (take 12 weights.now) result }
{
    for s in 4..24 {
        if lies_on(weights, total, s) {
            return Some(s);
        }
    }
    None
}

// A triangle of degree n in the side s that has the point p, by its path, and p's number there: the one that points up
// from p with one less.
pub fn corner_at(s: u64, n: u64, p: Point) -> Corner
    requires { (n ≤ 24) × (p.w1 + p.w2 + p.w3 ≡ 2 ^ n) }
    ensures { (result.path < 2 ^ (2 * n)) × OneToThree result.number
        × (corner_of s (digits_of n result.path) result.number ≡ spread s p) }
{
    let x = p.w1;
    let y = p.w2;
    let z = p.w3;
    if 0 < x {
        return Corner {
            path: State::Up(x - 1, y, z).path(n),
            number: 1,
        };
    }
    if 0 < y {
        return Corner {
            path: State::Up(x, y - 1, z).path(n),
            number: 2,
        };
    }
    Corner {
        path: State::Up(x, y, z - 1).path(n),
        number: 3,
    }
}
