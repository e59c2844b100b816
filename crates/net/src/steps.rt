// The step across an edge, on words: all digits at once, where they stand.
ghost use Rattle.std.specs.Prelude.{◌≡◌, ◌^◌, ◌<◌, ◌≤◌};
ghost use Rattle.words.specs.Refusals.{check_code, check_name_fields};
ghost use Rattle.net.specs.Sides.{OneToThree};
ghost use Rattle.net.specs.Corners.{name_of};
ghost use Rattle.net.specs.Means.Spreads.{sign};
ghost use Rattle.net.specs.Means.Flags.{other, flags, span_of};
ghost use Rattle.net.specs.Means.Walks.{step_from, edge_there, place_at, renumbered, over_seam, name_at};

use crate::{Edge, seams};
use words::TriangleCode;

// 1 at each of the 27 pairs of bits below a word's degree: its digits, two pairs of zero bits, the corner number.
const ONES: u64 = 0x15_5555_5555_5555;

// 1 at each of these, and at the lowest bit of the degree.
const MORE_ONES: u64 = 0x55_5555_5555_5555;

// 2^54: the first number above all digits.
pub const ABOVE: u64 = 18014398509481984;

// 2^59: the weight of a word's side.
const SIDE: u64 = 576460752303423488;

// ---- flags at digits

// 1 at each digit that is not 0.
fn somes_of(w: u64) -> u64
    ensures { result ≡ flags sign w }
{
    (w | (w / 2)) & ONES
}

// 1 at each digit that is neither 0 nor c.
fn others_of(w: u64, c: u64) -> u64
    requires { OneToThree c }
    ensures { result ≡ flags (other c) w }
{
    somes_of(w) & somes_of(w ^ (c * ONES))
}

// 1 at each digit that the step across edge k changes: from the last, whose weight is the unit, up to the first that is
// 0 or k, that one with them. Where there is none, what is added to the last is carried above all digits.
pub fn span_of(w: u64, unit: u64, k: u64) -> u64
    requires { OneToThree k × (unit ≤ 2 ^ 54) }
    ensures { result ≡ span_of w unit k }
{
    let threes = 3 * others_of(w, k);
    (threes ^ (threes + unit)) & MORE_ONES
}

// ---- steps

// On another side s, with c kept and the other two of 1, 2, 3 exchanged, in every digit and in the number in the lowest
// bits.
pub fn renumbered(r: u64, c: u64, s: u64) -> u64
    requires { (check_name_fields (name_of r) ≡ 0) × OneToThree c × (s < 24) }
    ensures { result ≡ name_at (renumbered c s (place_at r)) }
{
    let w = r ^ (c * others_of(r, c));
    w % SIDE + SIDE * s
}

// Over the seam of edge k: on the side across it, renumbered.
pub fn over_seam(r: u64, k: u64) -> u64
    requires { (check_name_fields (name_of r) ≡ 0) × OneToThree k }
    ensures { result ≡ name_at (over_seam k (place_at r)) }
{
    let s = words::side_of(r);
    renumbered(r, seams::seam_kept(s, k), seams::seam_side(s, k))
}

impl Edge {
    // The same edge, of the triangle across it. A step inside a side changes each digit of its span by k, since i xor j
    // is k for {i, j, k} = {1, 2, 3}. Over a seam the edge's number is renumbered with the digits.
    pub fn neighbour(self) -> Edge
        requires { (check_code self.code ≡ 0) × OneToThree self.number }
        ensures { result ≡ edge_there (step_from self) }
    {
        let t = self.code;
        let w = t.0;
        let k = self.number;
        let x = span_of(w, words::unit_of(w), k);
        if x < ABOVE {
            return Edge {
                code: TriangleCode(w ^ (k * x)),
                number: k,
            };
        }
        let r = over_seam(w + k, k);
        Edge {
            code: TriangleCode(r - r % 4),
            number: r % 4,
        }
    }
}
