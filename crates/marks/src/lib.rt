// The calls for marks on the chart (document 02, 2026-14). The drawing list has one kind of item, a mark: nothing, one
// dot, or a segment between two points. `table_mark` answers that of a triangle of a table, `edge_mark` that of an edge
// of a triangle; the points are those that points::drawn_of answers. Neither has a `requires`; each states its complete
// answer, and the crate contracts holds it to that.
#![tactic(auto)]

ghost use Rattle.marks.specs.Answers.{mark_told, edge_mark_told, TableMarkAnswer, EdgeMarkAnswer};

use filing::Point;
use frame::Refusal;
use net::seams::of_three;
use tables::TableRefusal;
use words::TriangleCode;

// A mark on the chart.
#[derive(Clone, Copy)]
pub enum Mark {
    Nothing,
    Dot(Point),
    Segment(Point, Point),
}

// The mark of a triangle of a table: nothing where it has no reading, else a dot at its corner 1.
pub fn table_mark(degree: u64, t: TriangleCode, list: &[i32]) -> Result<Mark, TableRefusal>
    ensures { TableMarkAnswer degree t list.now (mark_told result) }
{
    Ok(match soundings::get(degree, t, list)? {
        None => Mark::Nothing,
        Some(_) => Mark::Dot(points::drawn_of(t, 1)?),
    })
}

// The mark of an edge of a triangle: a segment between the edge's corners in rising number.
pub fn edge_mark(t: TriangleCode, edge: u64) -> Result<Mark, Refusal>
    ensures { EdgeMarkAnswer t edge (edge_mark_told result) }
{
    corners::refuse_numbered(t, edge)?;
    let from = points::drawn_of(t, of_three(edge, 2, 1, 1))?;
    let to = points::drawn_of(t, of_three(edge, 3, 3, 2))?;
    Ok(Mark::Segment(from, to))
}
