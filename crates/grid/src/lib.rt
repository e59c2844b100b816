// The grid: every call of document 01, for any number and any lent list. None has a `requires`; each states its
// complete answer where it is defined, and specs/CallContracts.antt holds it to that.
//
// Checking a code, parent and child are methods by value of `TriangleCode`: `check`, `parent`, `child`. (No calls of
// document 01 are the methods of `Golden`, which ask that their numbers are small.)
#![tactic(auto)]

pub use corners::Step;
pub use filing::{Coordinates, Direction, Point, Ticks};
pub use frame::Refusal;
pub use golden::Golden;
pub use words::{CornerName, TriangleCode};

// Checking a word as a corner name.
pub use corners::check_name;
// Crossing an edge: the triangle there, and how the edge and its corners are numbered in it.
pub use corners::cross;
// The twelve weights of a corner, of a code with a corner number or of a name.
pub use twelves::{weights_of, weights_of_name};
// Its exact coordinates, its t on each axis, its drawn coordinates.
pub use points::{
    coordinates_of, coordinates_of_name, drawn_of, drawn_of_name, ticks_of, ticks_of_name,
};
// Naming a corner, and the way back from twelve weights.
pub use corners::name_of;
pub use twelves::name_back;
// The ring round a corner.
pub use corners::ring;
// Filing a direction, and listing all triangles that hold it.
pub use directions::{file, list};
