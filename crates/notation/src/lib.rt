// The codes of source document 000 (specs/), with the laws of them (proofs/); in code how their digits are read and
// written, and the way from a domain to its base vertex and back.
#![tactic(auto)]

ghost use Rattle.std.specs.Prelude.{reverse, ◌≡◌, true, ◌+◌, ◌*◌, ◌^◌, ◌≤◌, ◌<◌, length, take};
ghost use Rattle.frame.specs.Answers.{over};
ghost use Rattle.words.specs.Words.{path};
ghost use Rattle.net.specs.Division.{sum};
ghost use Rattle.net.specs.Means.Paths.{digits_of};
ghost use Rattle.notation.specs.Means.Directions.{
  other,
  turned,
  directions,
  turned_parts,
  orientation,
  is_base,
  base_state,
  BaseFor,
};
ghost use Rattle.notation.specs.Means.Reading.{taken, IsVertexOf};

use knots::back;
use net::{Point, State};

// The digits of a domain by their path, and the orientation of its side.
#[derive(Clone, Copy)]
pub struct Turned {
    pub orientation: u64,
    pub path: u64,
}

// A vertex's code: a, p and the path of its directions.
#[derive(Clone, Copy)]
pub struct Vertex {
    pub a: u64,
    pub p: u64,
    pub path: u64,
}

// ---- digits

// The path of the digits of a list, or that one of them is none.
pub fn read_digits(list: &[u64]) -> Option<u64>
    requires { length list.now ≤ 24 }
    ensures { result ≡ taken 0 list.now }
{
    let mut v = 0;
    for d in list {
        if 3 < *d {
            return None;
        }
        v = 4 * v + *d;
    }
    Some(v)
}

// The n digits of the path v, the first first, over the front of a list: from the last to the first.
pub fn put_digits(n: u64, v: u64, out: &mut [u64])
    requires { n ≤ length out.old }
    ensures { out.new ≡ over (reverse (digits_of n v)) out.old }
{
    let mut rest = v;
    for i in (0..n as usize).rev() {
        out[i] = rest % 4;
        rest /= 4;
    }
}

// ---- base vertices

// The direction of a part, or the part of a direction, where the part has the orientation o.
fn other_of(o: u64, d: u64) -> u64
    requires { (o ≤ 1) × (d ≤ 3) }
    ensures { result ≡ other o d }
{
    d ^ (2 + o)
}

// The orientation of a domain by that of its part r, or the other way round.
fn turned_by(r: u64, o: u64) -> u64
    requires { o ≤ 1 }
    ensures { result ≡ turned r o }
{
    if r == 0 { 1 - o } else { o }
}

// The directions of the base vertex of the domain with orientation o and the n digits of the path v, as a path. (As
// deep as n: 24 at most.)
pub fn directions_of(o: u64, n: u64, v: u64) -> u64
    requires { (o ≤ 1) × (n ≤ 24) }
    ensures { result ≡ path (directions o (digits_of n v)) }
{
    if n == 0 {
        return 0;
    }
    let r = v % 4;
    4 * directions_of(turned_by(r, o), n - 1, v / 4) + other_of(o, r)
}

// The domain with orientation o whose base vertex has the n directions of the path v. (As deep as n: 24 at most.)
pub fn parts_of(o: u64, n: u64, v: u64) -> Turned
    requires { (o ≤ 1) × (n ≤ 24) }
    ensures { result ≡ turned_parts o (digits_of n v) }
{
    if n == 0 {
        return Turned {
            orientation: o,
            path: 0,
        };
    }
    let r = other_of(o, v % 4);
    let above = parts_of(turned_by(r, o), n - 1, v / 4);
    Turned {
        orientation: above.orientation,
        path: 4 * above.path + r,
    }
}

// ---- the domain of orientation 0 that has a corner as its base vertex

fn orientation_of(s: u64) -> u64
    requires { s < 24 }
    ensures { result ≡ orientation s }
{
    (s / 2 + s) % 2
}

// Whether a point of the side s is corner 2 of such a domain.
fn is_base(s: u64, p: Point) -> bool
    requires { s < 24 }
    ensures { result ≡ is_base s p }
{
    if orientation_of(s) == 0 {
        0 < p.w2
    } else {
        0 < p.w1 && 0 < p.w3
    }
}

// The side in which it lies: of twelve weights that add to the total.
pub fn base_side(weights: &[u64], total: u64) -> Option<u64>
    requires { (12 ≤ length weights.now) × (total < 2 ^ 60) × (sum (take 12 weights.now) ≡ total) }
    ensures { BaseFor (take 12 weights.now) result }
{
    for s in 4..24 {
        if back::lies_on(weights, total, s) && is_base(s, back::point_on(weights, s)) {
            return Some(s);
        }
    }
    None
}

// The domain itself, in that side.
pub fn base_state(s: u64, p: Point) -> State
    requires { (s < 24) × (is_base s p ≡ true) }
    ensures { result ≡ base_state s p }
{
    if orientation_of(s) == 0 {
        State::Up(p.w1, p.w2 - 1, p.w3)
    } else {
        State::Down(p.w1 - 1, p.w2, p.w3 - 1)
    }
}

// The code of a corner of degree n by its twelve weights. A corner without such a domain is a pole.
pub fn vertex_of(weights: &[u64], n: u64) -> Vertex
    requires { (12 ≤ length weights.now) × (n ≤ 24) × (sum (take 12 weights.now) ≡ 2 ^ n) }
    ensures { IsVertexOf n (take 12 weights.now) result }
{
    let Some(s) = base_side(weights, words::power(n)) else {
        return Vertex {
            a: 0,
            p: if weights[0] == 0 { 1 } else { 0 },
            path: 0,
        };
    };
    let state = base_state(s, back::point_on(weights, s));
    Vertex {
        a: s / 4,
        p: s / 2 % 2,
        path: directions_of(0, n, state.path(n)),
    }
}
