// The triangles that hold a direction: the quick way, by whole numbers near to its determinants, where it stands
// clearly inside a triangle of degree 24; and the exact way, wherever it stands. The definitions, the laws and the near
// numbers are in the crate seats.
#![tactic(auto)]

pub mod exact;

ghost use Rattle.std.specs.Prelude.{◌≡◌, ◌+◌, ◌*◌, ◌<◌, ◌≤◌, IfSome};
ghost use Rattle.words.specs.Family.{code_of};
ghost use Rattle.filing.specs.Filing.{IsFiled};
ghost use Rattle.filing.specs.Means.Lists.{Room, Puts, all_words};
ghost use Rattle.filing.specs.Means.Sides.{IsLevel};
ghost use Rattle.seats.specs.Means.Octants.{other_octant, side_at, first_at, second_at};
ghost use Rattle.seats.specs.Means.Roles.{triple_at, floors_at, gaps_at, seat_words};
ghost use Rattle.seats.specs.Means.Finding.{IsSome, AreShares, FoundIn, OneWord};

use filing::Direction;
use net::seams::of_three;
use seats::placing::{first_at, second_at, side_at};
use seats::{Found, Triple, dividing, placing};
use shares::{Floors, Gaps, descent, walks, weaving};

// Where a direction stands, if that is clear.
fn find(d: Direction) -> Option<Found>
    requires { IsLevel d × IsSome d }
    ensures { IfSome result (FoundIn d) }
{
    let t = placing::sit(d);
    let q = dividing::divide_three(t.x1, t.x2, t.sum);
    if !dividing::all_clear(q.q1.rest, q.q2.rest, q.q3.rest, q.sum) {
        return None;
    }
    Some(Found {
        side: t.side,
        floors: Floors {
            f1: q.q1.whole,
            f2: q.q2.whole,
            f3: q.q3.whole,
        },
    })
}

// The one word of the degree whose triangle holds a direction, if that is clear.
pub fn quick_word(degree: u64, d: Direction) -> Option<u64>
    requires { (degree ≤ 24) × IsLevel d × IsSome d }
    ensures { IfSome result (OneWord degree d) }
{
    let h = find(d)?;
    let path = weaving::path(degree, h.floors);
    Some(words::word_of(h.side, degree, path))
}

// ---- the exact way

// Those of the three roles, in the order of the corners of a seat's side.
fn at_corners(k: u64, x: u64, y: u64, z: u64) -> Triple
    requires { (k < 32) × (first_at k + second_at k ≤ 6) }
    ensures { result ≡ triple_at k x y z }
{
    let i = first_at(k);
    let j = second_at(k);
    Triple {
        c1: of_three(i, x, y, z),
        c2: of_three(j, x, y, z),
        c3: of_three(6 - i - j, x, y, z),
    }
}

fn floors_at(k: u64, f: Floors) -> Floors
    requires { (k < 32) × (first_at k + second_at k ≤ 6) }
    ensures { result ≡ floors_at k f }
{
    let t = at_corners(k, f.f1, f.f2, f.f3);
    Floors {
        f1: t.c1,
        f2: t.c2,
        f3: t.c3,
    }
}

fn gaps_at(k: u64, g: Gaps) -> Gaps
    requires { (k < 32) × (first_at k + second_at k ≤ 6) }
    ensures { result ≡ gaps_at k g }
{
    let t = at_corners(k, g.g1, g.g2, g.g3);
    Gaps {
        g1: t.c1,
        g2: t.c2,
        g3: t.c3,
    }
}

// The least word of the degree whose triangle holds a direction. (It stays out of its caller, where few directions come
// to it.)
#[inline(never)]
pub fn exact_word(degree: u64, d: Direction) -> u64
    requires { (degree ≤ 24) × IsLevel d × IsSome d }
    ensures { IsFiled degree d (code_of result) }
{
    let t = exact::stand_of(d);
    let k = 4 * t.octant + t.kind;
    let f = floors_at(k, t.floors);
    let g = gaps_at(k, t.gaps);
    let path = descent::descend(degree, 16777216, f.f1, f.f2, f.f3, g.g1, g.g2, g.g3, 0);
    words::word_of(side_at(t.octant, t.kind), degree, path)
}

// The octant of the other side, where a direction lies on the edge between two.
fn other_octant(octant: u64, kind: u64) -> u64
    ensures { result ≡ other_octant octant kind }
{
    match kind {
        1 => octant ^ 2,
        2 => octant ^ 4,
        _ => octant ^ 1,
    }
}

// The words of the degree in one side whose triangles hold a direction, in the places from `count` on, and the count
// after them.
fn list_side(
    degree: u64,
    octant: u64,
    kind: u64,
    f: Floors,
    g: Gaps,
    count: usize,
    out: &mut [u64],
) -> usize
    requires { (degree ≤ 24)
        × (octant < 8)
        × (kind < 4)
        × (side_at (4 * octant + kind) < 24)
        × (first_at (4 * octant + kind) + second_at (4 * octant + kind) ≤ 6)
        × AreShares (floors_at (4 * octant + kind) f) (gaps_at (4 * octant + kind) g)
        × Room count (seat_words degree (4 * octant + kind) f g) out.old }
    ensures { Puts count (seat_words degree (4 * octant + kind) f g) out.old result out.new }
{
    let k = 4 * octant + kind;
    walks::list_in(
        side_at(octant, kind),
        degree,
        floors_at(k, f),
        gaps_at(k, g),
        count,
        out,
    )
}

// All words of the degree whose triangles hold a direction, rising.
pub fn list_exactly(degree: u64, d: Direction, out: &mut [u64]) -> usize
    requires { (degree ≤ 24) × IsLevel d × IsSome d × Room 0 (all_words d degree 4) out.old }
    ensures { Puts 0 (all_words d degree 4) out.old result out.new }
{
    let t = exact::stand_of(d);
    let octant = t.octant;
    let kind = t.kind;
    let f = t.floors;
    let g = t.gaps;
    let m = list_side(degree, octant, kind, f, g, 0, out);
    if f.f3 + g.g3 == 0 {
        return list_side(degree, other_octant(octant, kind), kind, f, g, m, out);
    }
    m
}
