// All triangles of a degree in one side that hold a direction, by its floors and gaps there, into a lent list, rising:
// those below the least child that holds, and then those below each other child that holds. Where no fork can come any
// more there is one.
ghost use Rattle.std.specs.Prelude.{true, false, ◌≡◌, suc, ◌+◌, ◌≤◌, ◌<◌};
ghost use Rattle.words.specs.Words.{word_of};
ghost use Rattle.net.specs.Division.{each};
ghost use Rattle.filing.specs.Means.Lists.{Room, Puts};
ghost use Rattle.shares.specs.declared.Gaps.{Gaps};
ghost use Rattle.shares.specs.Means.Paths.{in_child, paths};
ghost use Rattle.shares.specs.Means.WalkWords.{floor_at, Straight, Single, Fair};
ghost use Rattle.shares.specs.Means.WalkWords.{IsWalk, walk_words, beside_words};

use crate::descent::{descend_straight, least_child};
use crate::{Floors, Gaps};
use net::seams::of_three;

// A walk through one side: the gaps are the same in every triangle of it.
#[derive(Clone, Copy)]
pub struct Walk {
    pub side: u64,
    pub degree: u64,
    pub gaps: Gaps,
}

// Whether one share of p parts makes no fork: it is not a whole number of parts, or it is none of them, or all.
fn runs_straight(p: u64, f: u64, g: u64) -> bool
    ensures { result ≡ true → Straight p f g }
{
    g == 1 || f == 0 || f == p
}

// Whether none of the three makes a fork, here or further down.
fn is_single(p: u64, f: Floors, g: Gaps) -> bool
    ensures { result ≡ true → Single p f g }
{
    runs_straight(p, f.f1, g.g1) && runs_straight(p, f.f2, g.g2) && runs_straight(p, f.f3, g.g3)
}

// Whether the least child, with this digit, is the only one that holds: no other has a share of half.
fn alone(digit: u64, h: u64, f: Floors) -> bool
    ensures { (result ≡ true → digit ≡ 0 → (f.f1 < h) × (f.f2 < h) × (f.f3 < h)) × (result ≡ false → digit ≡ 0) }
{
    digit != 0 || f.f1 < h && f.f2 < h && f.f3 < h
}

// The floors in the child at the corner k, where its share is half; they do not depend on the gaps.
fn in_corner(h: u64, k: u64, f: Floors) -> Floors
    requires { (1 ≤ k) × (k ≤ 3) × (h ≤ floor_at k f) }
    ensures { (G : Gaps) → result ≡ in_child h k f G }
{
    match k {
        1 => Floors { f1: f.f1 - h, ..f },
        2 => Floors { f2: f.f2 - h, ..f },
        _ => Floors { f3: f.f3 - h, ..f },
    }
}

// From the triangle at the path v, n digits above those to list, whose edge has p parts: their words in the places
// from `count` on, and the count after them.
#[cycle(list_below_list_beside)]
fn list_below(w: Walk, n: u64, p: u64, f: Floors, v: u64, count: usize, out: &mut [u64]) -> usize
    requires { IsWalk w n p f v × Room count (walk_words w n p f v) out.old }
    ensures { Puts count (walk_words w n p f v) out.old result out.new }
{
    if n == 0 {
        out[count] = words::word_of(w.side, w.degree, v);
        return count + 1;
    }
    if is_single(p, f, w.gaps) {
        let u = descend_straight(n, p, f, w.gaps, v);
        out[count] = words::word_of(w.side, w.degree, u);
        return count + 1;
    }
    let h = p / 2;
    let c = least_child(h, f, w.gaps);
    let u = 4 * v + c.digit;
    if alone(c.digit, h, f) {
        return list_below(w, n - 1, h, c.floors, u, count, out);
    }
    let m = list_below(w, n - 1, h, c.floors, u, count, out);
    list_beside(w, n - 1, h, f, v, 1, m, out)
}

// The same for those of its children k to 3 with a share of half, whose edge has h parts, n digits above those to list.
#[cycle(list_below_list_beside)]
fn list_beside(
    w: Walk,
    n: u64,
    h: u64,
    f: Floors,
    v: u64,
    k: u64,
    count: usize,
    out: &mut [u64],
) -> usize
    requires { IsWalk w (suc n) (h + h) f v × (1 ≤ k) × (k ≤ 4) × Room count (beside_words w n h f v k) out.old }
    ensures { Puts count (beside_words w n h f v k) out.old result out.new }
{
    if k == 4 {
        return count;
    }
    if of_three(k, f.f1, f.f2, f.f3) < h {
        return list_beside(w, n, h, f, v, k + 1, count, out);
    }
    let c = in_corner(h, k, f);
    let m = list_below(w, n, h, c, 4 * v + k, count, out);
    list_beside(w, n, h, f, v, k + 1, m, out)
}

// The words of all triangles of a degree in a side that hold a direction with these floors and gaps there.
pub fn list_in(side: u64, degree: u64, f: Floors, g: Gaps, count: usize, out: &mut [u64]) -> usize
    requires { (side < 24)
        × (degree ≤ 24)
        × ((f.f1 ≤ 16777216) × (f.f2 ≤ 16777216) × (f.f3 ≤ 16777216))
        × ((g.g1 ≤ 1) × (g.g2 ≤ 1) × (g.g3 ≤ 1))
        × Fair 16777216 f g
        × Room count (each (word_of side degree) (paths degree 16777216 f g 0)) out.old }
    ensures { Puts count (each (word_of side degree) (paths degree 16777216 f g 0)) out.old result out.new }
{
    let w = Walk {
        side,
        degree,
        gaps: g,
    };
    list_below(w, degree, 16777216, f, 0, count, out)
}
