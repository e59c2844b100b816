// The corners of the net: the weights of each, its least name, the ring round it, and the way back from its weights.
// The definitions, the laws, and the step across an edge are in the crate net.
#![tactic(auto)]

pub mod back;
pub mod rings;
pub mod states;
pub mod weights;

ghost use Rattle.std.specs.Prelude.{◌≡◌, ◌≤◌, length};
ghost use Rattle.words.specs.Words.{degree_of, digits};
ghost use Rattle.words.specs.Refusals.{check_code, check_name_fields};
ghost use Rattle.net.specs.Sides.{OneToThree};
ghost use Rattle.net.specs.Corners.{corner, code_inside};
ghost use Rattle.frame.specs.Answers.{over};
ghost use Rattle.net.specs.Means.States.{state_of, point_of};

use net::Point;
use words::{CornerName, TriangleCode};

// The triangle code inside a corner name.
pub fn code_inside(r: CornerName) -> TriangleCode
    requires { check_name_fields r ≡ 0 }
    ensures { result ≡ code_inside r }
{
    let w = r.0;
    TriangleCode(w - w % 4)
}

// The weights of a corner of a triangle on the corners of its side.
pub fn point_of(t: TriangleCode, i: u64) -> Point
    requires { (check_code t ≡ 0) × OneToThree i }
    ensures { result ≡ point_of i (state_of (digits t.0 (degree_of t.0))) }
{
    let w = t.0;
    let n = words::degree_of(w);
    states::state_of(n, words::path_of(w, n)).corner(i)
}

// The weights of a corner of a triangle, over the front of a list.
pub fn write_corner(t: TriangleCode, i: u64, out: &mut [u64])
    requires { (check_code t ≡ 0) × OneToThree i × (12 ≤ length out.old) }
    ensures { out.new ≡ over (corner t i) out.old }
{
    weights::write_weights(words::side_of(t.0), point_of(t, i), out);
}
