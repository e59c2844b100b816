// The calls of document 01 on corners and edges: what each refuses and answers (specs/), with the laws of it (proofs/).
// In code checking a name, crossing, naming and the ring; those on twelve weights are in the crate twelves.
#![tactic(auto)]

ghost use Rattle.std.specs.Prelude.{◌≡◌};
ghost use Rattle.net.specs.Refusals.{check_name};
ghost use Rattle.corners.specs.Refusals.{refuse_numbered};
ghost use Rattle.corners.specs.Answers.{step_told, name_told, count_told, CrossAnswer, NamingAnswer, RingAnswer};
ghost use Rattle.frame.specs.Refusals.{told_number};

use frame::Refusal;
use knots::rings;
use net::{Edge, seams};
use words::{CornerName, TriangleCode};

// A neighbour's code, the number of the shared edge there, and the numbers there of the edge's two corners: first of
// the one whose number is lower here, then of the one whose number is higher.
#[derive(Clone, Copy, Debug, PartialEq, Eq, Hash)]
pub struct Step {
    pub code: TriangleCode,
    pub edge: u64,
    pub first: u64,
    pub second: u64,
}

// The places that the list of a ring must have.
const TRIANGLES: usize = 6;

// ---- a code with an edge or corner number

// Refuses by 1 to 5 a code with an edge or corner number.
pub fn refuse_numbered(t: TriangleCode, i: u64) -> Result<(), Refusal>
    ensures { told_number result ≡ refuse_numbered t i }
{
    t.check()?;
    if i == 0 {
        return Err(Refusal::Argument);
    }
    if 3 < i {
        return Err(Refusal::Argument);
    }
    Ok(())
}

// ---- checking

// Checking a word as a corner name: refusal 1 to 4 or 10.
pub fn check_name(r: CornerName) -> Result<(), Refusal>
    ensures { told_number result ≡ check_name r }
{
    words::check_name_fields(r)?;
    if rings::least_name(r) == r {
        Ok(())
    } else {
        Err(Refusal::NotCanonical)
    }
}

// ---- crossing

// Crossing an edge: the neighbour's code, the number of the shared edge there, and how its corners turned. The corner
// that follows the edge here goes before it there, and the other way round; the lower corner follows edges 1 and 3, and
// goes before edge 2. (i xor j is k for {i, j, k} = {1, 2, 3}.)
pub fn cross(t: TriangleCode, edge: u64) -> Result<Step, Refusal>
    ensures { CrossAnswer t edge (step_told result) }
{
    refuse_numbered(t, edge)?;
    let here = Edge {
        code: t,
        number: edge,
    };
    let there = here.neighbour();
    let code = there.code;
    let next = seams::next_of(there.number);
    let previous = there.number ^ next;
    Ok(Step {
        code,
        edge: there.number,
        first: seams::of_three(edge, previous, next, previous),
        second: seams::of_three(edge, next, previous, next),
    })
}

// ---- names

// The canonical name of a corner of a triangle.
pub fn name_of(t: TriangleCode, corner: u64) -> Result<CornerName, Refusal>
    ensures { NamingAnswer t corner (name_told result) }
{
    refuse_numbered(t, corner)?;
    Ok(rings::least_name(CornerName(t.0 + corner)))
}

// ---- the ring

// The ring: the triangles round the corner that a name names, into a list of at least six places. How many there are.
pub fn ring(r: CornerName, out: &mut [u64]) -> Result<u64, Refusal>
    ensures { RingAnswer r out.old (count_told result) out.new }
{
    check_name(r)?;
    if out.len() < TRIANGLES {
        return Err(Refusal::ShortList);
    }
    let m = knots::weights::ring_count(knots::point_of(knots::code_inside(r), r.0 % 4));
    rings::write_ring(r, m, out);
    Ok(m)
}
