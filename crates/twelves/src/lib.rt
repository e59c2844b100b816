// The calls of document 01 on twelve weights: the weights of a corner, of a code with a corner number or of a name, and
// the way back from them. What they refuse and answer is defined in the crate corners, below.
#![tactic(auto)]

ghost use Rattle.frame.specs.Refusals.{told_number};
ghost use Rattle.corners.specs.Answers.{name_told, WeightsAnswer, NameWeightsAnswer, BackAnswer};

use frame::Refusal;
use knots::rings;
use words::{CornerName, TriangleCode};

// The places that a list of weights must have.
const WEIGHTS: usize = 12;

// ---- weights: of a code with a corner number and of a name, as in points, two calls that share all but their refusals

// The twelve weights of a corner of a triangle, into a list of at least twelve places.
pub fn weights_of(t: TriangleCode, corner: u64, out: &mut [u64]) -> Result<(), Refusal>
    ensures { WeightsAnswer t corner out.old (told_number result) out.new }
{
    corners::refuse_numbered(t, corner)?;
    if out.len() < WEIGHTS {
        return Err(Refusal::ShortList);
    }
    knots::write_corner(t, corner, out);
    Ok(())
}

// The same for the corner that a name names.
pub fn weights_of_name(r: CornerName, out: &mut [u64]) -> Result<(), Refusal>
    ensures { NameWeightsAnswer r out.old (told_number result) out.new }
{
    corners::check_name(r)?;
    if out.len() < WEIGHTS {
        return Err(Refusal::ShortList);
    }
    knots::write_corner(knots::code_inside(r), r.0 % 4, out);
    Ok(())
}

// ---- the way back

// The way back: the name of the corner of this degree that has the twelve weights.
pub fn name_back(degree: u64, weights: &[u64]) -> Result<CornerName, Refusal>
    ensures { BackAnswer degree weights.now (name_told result) }
{
    if 24 < degree {
        return Err(Refusal::Degree);
    }
    if weights.len() < WEIGHTS {
        return Err(Refusal::ShortList);
    }
    let total = words::power(degree);
    if !knots::back::adds_to(weights, total) {
        return Err(Refusal::NoCorner);
    }
    let Some(s) = knots::back::side_of(weights, total) else {
        return Err(Refusal::NoCorner);
    };
    let c = knots::back::corner_at(s, degree, knots::back::point_on(weights, s));
    let here = CornerName(words::word_of(s, degree, c.path) + c.number);
    Ok(rings::least_name(here))
}
