// A side that may hold a direction, and whole numbers near to the direction's determinants there.
ghost use Rattle.std.specs.Prelude.{◌≡◌, nat_abs};
ghost use Prim.Native.Nat.{◌+◌, ◌*◌, ◌<◌, ◌≤◌};
ghost use Rattle.filing.specs.Means.Sides.{IsLevel};
ghost use Rattle.seats.specs.Means.Near.{NearPhi};
ghost use Rattle.seats.specs.Means.Octants.{sign_at, row_of, side_at, first_at, second_at};
ghost use Rattle.seats.specs.Means.Roles.{AreScaled, AreBeyond, AreRoles, IsSeated, seated_at};
ghost use Rattle.seats.specs.Means.Finding.{IsSome};

use filing::Direction;
use net::seams::of_three;

// By octant, with five bits for each: the middle side, and those beyond its edges 1, 2 and 3. (A constant array would
// be written out anew at each reading.)
const MIDDLE: u64 = 625433286152;

const BEYOND_1: u64 = 660931714601;

const BEYOND_2: u64 = 779987180940;

const BEYOND_3: u64 = 492254663300;

// By octant and kind, with two bits for each: which of the three roles stands at the side's corner 1, and at its
// corner 2.
const FIRST: u64 = 8753229350460422521;

const SECOND: u64 = 16690016339199190942;

// The sizes of a direction's coordinates.
#[derive(Clone, Copy)]
pub struct Sizes {
    pub a: u64,
    pub b: u64,
    pub c: u64,
}

// The middle side of an octant, or the one beyond its edge, and three numbers near to the determinants there.
#[derive(Clone, Copy)]
pub struct Roles {
    pub kind: u64,
    pub r1: u64,
    pub r2: u64,
    pub r3: u64,
}

// A side, numbers near to the first two determinants, and one near to their sum.
#[derive(Clone, Copy)]
pub struct Seated {
    pub side: u64,
    pub x1: u64,
    pub x2: u64,
    pub sum: u64,
}

// ---- sizes and signs

// |c|.
pub fn size(c: i32) -> u64
    ensures { result ≡ nat_abs c }
{
    golden::magnitude(c as i64)
}

// How many times as large sizes are taken that have these bits: the errors of near numbers are then a small part of
// them.
fn scale_of(bits: u64) -> u64
    ensures { (0 < result) × (result ≤ 32768) × ((x : Prim.Native.Nat.ℕ) → x ≤ bits → x ≤ 1000000000
        → result * x ≤ 1000000000)
        × (0 < bits → 32768 ≤ result * bits) }
{
    if bits <= 16383 {
        return 32768;
    }
    if bits <= 524287 {
        return 1024;
    }
    1
}

fn scaled(a: u64, b: u64, c: u64) -> Sizes
    requires { (a ≤ 1000000000) × (b ≤ 1000000000) × (c ≤ 1000000000) }
    ensures { AreScaled a b c result }
{
    let m = scale_of(a | b | c);
    Sizes {
        a: m * a,
        b: m * b,
        c: m * c,
    }
}

pub fn sizes_of(d: Direction) -> Sizes
    requires { IsLevel d }
    ensures { AreScaled (nat_abs d.x) (nat_abs d.y) (nat_abs d.z) result }
{
    scaled(size(d.x), size(d.y), size(d.z))
}

// 1 where it is negative; 0 has the sign that is chosen.
pub fn sign_of(c: i32, chosen: u64) -> u64
    requires { chosen < 2 }
    ensures { (result ≡ sign_at c chosen) × (result < 2) }
{
    if c < 0 {
        return 1;
    }
    if c == 0 {
        return chosen;
    }
    0
}

// The octant, by the three signs.
pub fn octant_of(q: u64, r: u64, s: u64) -> u64
    requires { (q < 2) × (r < 2) × (s < 2) }
    ensures { (result ≡ q + 2 * r + 4 * s) × (result < 8) }
{
    q + 2 * r + 4 * s
}

// ---- near numbers

// 2^19·nφ, rounded down or one less: φ is a little more than (848315 + 3452697171 / 2^32) / 2^19.
pub fn times_phi(n: u64) -> u64
    requires { n ≤ 1000000000 }
    ensures { NearPhi n result }
{
    848315 * n + 3452697171 * n / 4294967296
}

// 2^19·(b + c + cφ).
pub fn leaning(b: u64, c: u64, tc: u64) -> u64
    requires { (b ≤ 1000000000) × (c ≤ 1000000000) × (tc ≤ 848316 * c) }
    ensures { result ≡ 524288 * (b + c) + tc }
{
    524288 * (b + c) + tc
}

// Beyond the edge where the number p is below ta.
fn beyond(kind: u64, a: u64, ta: u64, b: u64, tb: u64, c: u64, tc: u64, p: u64) -> Roles
    requires { (a ≤ 1000000000) × (b ≤ 1000000000) × (c ≤ 1000000000) × NearPhi a ta × NearPhi b tb × NearPhi c tc
        × (p ≡ 524288 * (b + c) + tc) × (p < ta) }
    ensures { (result.kind ≡ kind) × AreBeyond a b c result }
{
    Roles {
        kind,
        r1: 524288 * c + ta + tc - 524288 * b,
        r2: ta - p,
        r3: 2 * tb,
    }
}

// By the sizes and what φ times them comes to.
fn by_products(a: u64, ta: u64, b: u64, tb: u64, c: u64, tc: u64) -> Roles
    requires { (a ≤ 1000000000) × (b ≤ 1000000000) × (c ≤ 1000000000) × NearPhi a ta × NearPhi b tb
        × NearPhi c tc }
    ensures { AreRoles a b c result }
{
    let p = leaning(b, c, tc);
    if p < ta {
        return beyond(1, a, ta, b, tb, c, tc, p);
    }
    let q = leaning(c, a, ta);
    if q < tb {
        return beyond(2, b, tb, c, tc, a, ta, q);
    }
    let r = leaning(a, b, tb);
    if r < tc {
        return beyond(3, c, tc, a, ta, b, tb, r);
    }
    Roles {
        kind: 0,
        r1: p - ta,
        r2: q - tb,
        r3: r - tc,
    }
}

fn by_sizes(a: u64, b: u64, c: u64) -> Roles
    requires { (a ≤ 1000000000) × (b ≤ 1000000000) × (c ≤ 1000000000) }
    ensures { AreRoles a b c result }
{
    by_products(a, times_phi(a), b, times_phi(b), c, times_phi(c))
}

// ---- the side and the order of its corners

fn row_of(kind: u64) -> u64
    ensures { result ≡ row_of kind }
{
    match kind {
        0 => MIDDLE,
        1 => BEYOND_1,
        2 => BEYOND_2,
        _ => BEYOND_3,
    }
}

// The side of a kind in an octant.
pub fn side_at(octant: u64, kind: u64) -> u64
    requires { (octant < 8) × (kind < 4) }
    ensures { result ≡ side_at (4 * octant + kind) }
{
    (row_of(kind) >> (5 * octant)) % 32
}

pub fn first_at(k: u64) -> u64
    requires { k < 32 }
    ensures { result ≡ first_at k }
{
    (FIRST >> (2 * k)) % 4
}

pub fn second_at(k: u64) -> u64
    requires { k < 32 }
    ensures { result ≡ second_at k }
{
    (SECOND >> (2 * k)) % 4
}

// The three numbers in the order of the side's corners.
fn in_order(octant: u64, kind: u64, r1: u64, r2: u64, r3: u64) -> Seated
    requires { (octant < 8) × (kind < 4) × (r1 + r2 + r3 < 4503599627370496) }
    ensures { result ≡ seated_at (4 * octant + kind) r1 r2 r3 }
{
    let k = 4 * octant + kind;
    Seated {
        side: side_at(octant, kind),
        x1: of_three(first_at(k), r1, r2, r3),
        x2: of_three(second_at(k), r1, r2, r3),
        sum: r1 + r2 + r3,
    }
}

// The octant of a direction that stands inside a side, where a coordinate 0 has either sign.
fn plain_octant(d: Direction) -> u64
    ensures { (result ≡ sign_at d.x 0 + 2 * sign_at d.y 0 + 4 * sign_at d.z 0) × (result < 8) }
{
    octant_of(sign_of(d.x, 0), sign_of(d.y, 0), sign_of(d.z, 0))
}

// The side that a direction may be in, with numbers near to its determinants there.
pub fn sit(d: Direction) -> Seated
    requires { IsLevel d × IsSome d }
    ensures { IsSeated d result }
{
    let n = sizes_of(d);
    let r = by_sizes(n.a, n.b, n.c);
    in_order(plain_octant(d), r.kind, r.r1, r.r2, r.r3)
}
