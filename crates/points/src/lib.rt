// The calls of document 01 for a corner's place: exact coordinates, t, drawn coordinates. Each comes twice, for a code with
// a corner number and for a name: a trait over the two, with its laws, would be longer than these six bodies of a line or
// two, which it could not do without.
#![tactic(auto)]

ghost use Rattle.points.specs.Answers.{place_told, ticks_told, point_told};
ghost use Rattle.points.specs.Answers.{PlaceAnswer, NamePlaceAnswer, TickAnswer, NameTickAnswer, DrawAnswer, NameDrawAnswer};

use filing::{Coordinates, Point, Ticks, drawn, weighing};
use frame::Refusal;
use words::{CornerName, TriangleCode};

// ---- exact coordinates

// The exact coordinates of a corner of a triangle.
pub fn coordinates_of(t: TriangleCode, corner: u64) -> Result<Coordinates, Refusal>
    ensures { PlaceAnswer t corner (place_told result) }
{
    let mut ws = [0u64; 12];
    twelves::weights_of(t, corner, &mut ws)?;
    Ok(weighing::exact_of(&ws))
}

// The same for the corner that a name names.
pub fn coordinates_of_name(q: CornerName) -> Result<Coordinates, Refusal>
    ensures { NamePlaceAnswer q (place_told result) }
{
    let mut ws = [0u64; 12];
    twelves::weights_of_name(q, &mut ws)?;
    Ok(weighing::exact_of(&ws))
}

// ---- t on each axis

// Of a corner of a triangle.
pub fn ticks_of(t: TriangleCode, corner: u64) -> Result<Ticks, Refusal>
    ensures { TickAnswer t corner (ticks_told result) }
{
    Ok(drawn::ticks_at(coordinates_of(t, corner)?))
}

// Of the corner that a name names.
pub fn ticks_of_name(q: CornerName) -> Result<Ticks, Refusal>
    ensures { NameTickAnswer q (ticks_told result) }
{
    Ok(drawn::ticks_at(coordinates_of_name(q)?))
}

// ---- drawn coordinates

// Of a corner of a triangle.
pub fn drawn_of(t: TriangleCode, corner: u64) -> Result<Point, Refusal>
    ensures { DrawAnswer t corner (point_told result) }
{
    Ok(drawn::point_at(words::degree_of(t.0), coordinates_of(t, corner)?))
}

// Of the corner that a name names.
pub fn drawn_of_name(q: CornerName) -> Result<Point, Refusal>
    ensures { NameDrawAnswer q (point_told result) }
{
    Ok(drawn::point_at(words::degree_of(q.0), coordinates_of_name(q)?))
}
