// The calls of document 01 on directions: filing one, and listing all triangles that hold it.
#![tactic(auto)]

ghost use Rattle.std.specs.Prelude.{◌≡◌};
ghost use Rattle.frame.specs.Refusals.{told_number};
ghost use Rattle.words.specs.Family.{code_told};
ghost use Rattle.corners.specs.Answers.{count_told};
ghost use Rattle.directions.specs.Refusals.{refuse_file};
ghost use Rattle.directions.specs.Answers.{FileAnswer, ListAnswer};

use filing::Direction;
use frame::Refusal;
use seats::placing::size;
use words::TriangleCode;

// Refuses a degree and a direction by 1, 8 or 7.
fn refuse_direction(degree: u64, d: Direction) -> Result<(), Refusal>
    ensures { told_number result ≡ refuse_file degree d }
{
    let x = size(d.x);
    let y = size(d.y);
    let z = size(d.z);
    if 24 < degree {
        return Err(Refusal::Degree);
    }
    if 1000000000 < x {
        return Err(Refusal::FarDirection);
    }
    if 1000000000 < y {
        return Err(Refusal::FarDirection);
    }
    if 1000000000 < z {
        return Err(Refusal::FarDirection);
    }
    if x + y + z == 0 {
        return Err(Refusal::ZeroDirection);
    }
    Ok(())
}

// ---- filing and listing

// Filing a direction: the least code of the degree that holds it. (It is compiled into its callers, where the result
// stays in registers: as a call it took some twenty instructions more.)
#[inline(always)]
pub fn file(degree: u64, d: Direction) -> Result<TriangleCode, Refusal>
    ensures { FileAnswer degree d (code_told result) }
{
    refuse_direction(degree, d)?;
    Ok(TriangleCode(match holders::quick_word(degree, d) {
        Some(w) => w,
        None => holders::exact_word(degree, d),
    }))
}

// Listing: all codes of the degree that hold a direction, rising, into a list of at least six places. How many there
// are.
pub fn list(degree: u64, d: Direction, out: &mut [u64]) -> Result<u64, Refusal>
    ensures { ListAnswer degree d out.old (count_told result) out.new }
{
    refuse_direction(degree, d)?;
    if out.len() < 6 {
        return Err(Refusal::ShortList);
    }
    if let Some(w) = holders::quick_word(degree, d) {
        out[0] = w;
        return Ok(1);
    }
    let m = holders::list_exactly(degree, d, out);
    Ok(m as u64)
}
