// Where a direction stands, exactly, also on an edge or a corner or next to one: the side by the signs of
// determinants, and each share by near numbers where these decide it, and by the determinant itself where they do
// not.
ghost use Rattle.std.specs.Prelude.{◌≡◌, true, false, ◌+◌, ◌-◌, ◌*◌, ◌<◌, ◌≤◌, ◌^◌, pos, ◌*ℤ◌, nat_abs};
ghost use Rattle.golden.specs.Decisions.{Decides};
ghost use Rattle.golden.specs.Numbers.{golden, whole, Below};
ghost use Rattle.golden.specs.Order.{NonNeg};
ghost use Rattle.filing.specs.Means.Sides.{IsLevel};
ghost use Rattle.shares.specs.Means.Shares.{times, Share};
ghost use Rattle.seats.specs.Means.Near.{NearPhi};
ghost use Rattle.seats.specs.Means.Octants.{lean, roles_of, first_x, first_y, first_z};
ghost use Rattle.seats.specs.Means.Roles.{AreBeyond, AreHeld, Beside, Within, Measured};
ghost use Rattle.seats.specs.Means.Finding.{IsSome, StandsAt};

use filing::{Determinants, Direction};
use golden::Golden;
use seats::Stand;
use seats::dividing::{MARGIN, Quotient, divide_three, is_clear};
use seats::placing::{Roles, Sizes, leaning, octant_of, sign_of, sizes_of, times_phi};
use shares::{Floors, Gaps};

// One share.
#[derive(Clone, Copy)]
struct Part {
    floor: u64,
    gap: u64,
}

// ---- the determinants

// u + vφ.
fn of_parts(u: u64, v: u64) -> Golden
    requires { (u ≤ 2000000000) × (v ≤ 2000000000) }
    ensures { result ≡ golden (pos u) (pos v) }
{
    Golden {
        u: u as i64,
        v: v as i64,
    }
}

// b + c + (c - a)φ.
fn lean(a: u64, b: u64, c: u64) -> Golden
    requires { (a ≤ 1000000000) × (b ≤ 1000000000) × (c ≤ 1000000000) }
    ensures { result ≡ lean a b c }
{
    of_parts(b + c, c) - of_parts(0, a)
}

fn determinants_beyond(a: u64, b: u64, c: u64) -> Determinants
    requires { (a ≤ 1000000000) × (b ≤ 1000000000) × (c ≤ 1000000000) }
    ensures { result ≡ roles_of 1 a b c }
{
    Determinants {
        d1: of_parts(c, a + c) - of_parts(b, 0),
        d2: of_parts(0, a) - of_parts(b + c, c),
        d3: of_parts(0, 2 * b),
    }
}

// In the order of the roles.
fn determinants_of(kind: u64, a: u64, b: u64, c: u64) -> Determinants
    requires { (a ≤ 1000000000) × (b ≤ 1000000000) × (c ≤ 1000000000) }
    ensures { result ≡ roles_of kind a b c }
{
    match kind {
        0 => Determinants {
            d1: lean(a, b, c),
            d2: lean(b, c, a),
            d3: lean(c, a, b),
        },
        1 => determinants_beyond(a, b, c),
        2 => determinants_beyond(b, c, a),
        _ => determinants_beyond(c, a, b),
    }
}

// ---- the kind of side, and near numbers

// Whether a direction lies beyond the edge: b + c + (c - a)φ is below 0.
fn is_beyond(a: u64, b: u64, c: u64) -> bool
    requires { (a ≤ 1000000000) × (b ≤ 1000000000) × (c ≤ 1000000000) }
    ensures { (result ≡ true → NonNeg (lean a b c) → ⊥) × (result ≡ false → NonNeg (lean a b c)) }
{
    !lean(a, b, c).at_least_zero()
}

// x - y, or 0 where that is less: the determinant is at least 0, so that 0 is then as near.
fn cut(x: u64, y: u64) -> u64
    ensures { result ≡ x - y }
{
    if y < x {
        return x - y;
    }
    0
}

fn cut_beyond(kind: u64, a: u64, ta: u64, b: u64, tb: u64, c: u64, tc: u64) -> Roles
    requires { (a ≤ 1000000000) × (b ≤ 1000000000) × (c ≤ 1000000000) × NearPhi a ta × NearPhi b tb × NearPhi c tc
        × (NonNeg (lean a b c) → ⊥) }
    ensures { (result.kind ≡ kind) × AreBeyond a b c result }
{
    Roles {
        kind,
        r1: cut(524288 * c + ta + tc, 524288 * b),
        r2: cut(ta, leaning(b, c, tc)),
        r3: 2 * tb,
    }
}

fn by_signs(a: u64, ta: u64, b: u64, tb: u64, c: u64, tc: u64) -> Roles
    requires { (a ≤ 1000000000) × (b ≤ 1000000000) × (c ≤ 1000000000) × NearPhi a ta × NearPhi b tb
        × NearPhi c tc }
    ensures { AreHeld a b c result }
{
    if is_beyond(a, b, c) {
        return cut_beyond(1, a, ta, b, tb, c, tc);
    }
    if is_beyond(b, c, a) {
        return cut_beyond(2, b, tb, c, tc, a, ta);
    }
    if is_beyond(c, a, b) {
        return cut_beyond(3, c, tc, a, ta, b, tb);
    }
    Roles {
        kind: 0,
        r1: cut(leaning(b, c, tc), ta),
        r2: cut(leaning(c, a, ta), tb),
        r3: cut(leaning(a, b, tb), tc),
    }
}

// ---- the shares

// f·x.
fn multiple(f: u64, x: i64) -> i64
    requires { (f ≤ 16777217) × (nat_abs x ≤ 8000000000) }
    ensures { result ≡ pos f *ℤ x }
{
    (f as i64) * x
}

// The same on both parts.
fn many(f: u64, x: Golden) -> Golden
    requires { (f ≤ 16777217) × Below 8000000001 x }
    ensures { result ≡ times f x }
{
    Golden {
        u: multiple(f, x.u),
        v: multiple(f, x.v),
    }
}

fn is_zero(x: Golden) -> bool
    requires { Below (2 ^ 57) x }
    ensures { Decides result (x ≡ whole (pos 0)) }
{
    golden::magnitude(x.u) + golden::magnitude(x.v) == 0
}

// The share of x in s, which is less than one part away from g parts.
fn part_at(x: Golden, s: Golden, g: u64) -> Part
    requires { (g ≤ 16777216) × Beside 8000000000 s x × Within g s x }
    ensures { Share 16777216 result.floor result.gap s x }
{
    let over = many(16777216, x) - many(g, s);
    if is_zero(over) {
        return Part { floor: g, gap: 0 };
    }
    if over.at_least_zero() {
        return Part { floor: g, gap: 1 };
    }
    Part {
        floor: g - 1,
        gap: 1,
    }
}

// The share of x in s, by numbers near to them, of which one divides the other so.
fn part_of(x: Golden, s: Golden, q: Quotient, sum: u64) -> Part
    requires { Beside 8000000000 s x × Measured x s q sum }
    ensures { Share 16777216 result.floor result.gap s x }
{
    let f = q.whole;
    let rest = q.rest;
    if is_clear(rest, sum) {
        return Part { floor: f, gap: 1 };
    }
    if rest < MARGIN {
        return part_at(x, s, f);
    }
    part_at(x, s, f + 1)
}

// The octant of the least side that holds a direction: of the two signs that a coordinate 0 may have, the one whose
// side comes first.
fn first_octant(d: Direction) -> u64
    ensures { result ≡ first_x d + 2 * first_y d + 4 * first_z d }
{
    let x = sign_of(d.x, 0);
    let y = sign_of(d.y, 1 - x);
    let z = sign_of(d.z, y);
    octant_of(x, y, z)
}

// Where a direction stands in the least side that holds it.
pub fn stand_of(d: Direction) -> Stand
    requires { IsLevel d × IsSome d }
    ensures { StandsAt d result }
{
    let n = sizes_of(d);
    let r = by_signs(
        n.a,
        times_phi(n.a),
        n.b,
        times_phi(n.b),
        n.c,
        times_phi(n.c),
    );
    let q = divide_three(r.r1, r.r2, r.r1 + r.r2 + r.r3);
    let t = determinants_of(r.kind, n.a, n.b, n.c);
    let s = t.d1 + t.d2 + t.d3;
    let p1 = part_of(t.d1, s, q.q1, q.sum);
    let p2 = part_of(t.d2, s, q.q2, q.sum);
    let p3 = part_of(t.d3, s, q.q3, q.sum);
    Stand {
        octant: first_octant(d),
        kind: r.kind,
        floors: Floors {
            f1: p1.floor,
            f2: p2.floor,
            f3: p3.floor,
        },
        gaps: Gaps {
            g1: p1.gap,
            g2: p2.gap,
            g3: p3.gap,
        },
    }
}
