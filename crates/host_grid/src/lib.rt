// Checking and crossing for a C host (document 02, 2026-01): plain numbers and lent bytes in, a refusal number out. The
// answer goes to the bytes, eight for each number, most significant first. What the calls answer is defined in the
// crate exports, below; filing and listing are in host_filing; the crate host, above, exports all.
#![tactic(auto)]

ghost use Rattle.std.specs.Prelude.{◌≡◌};
ghost use Rattle.frame.specs.Refusals.{told_number};
ghost use Rattle.words.specs.Family.{code_of};
ghost use Rattle.words.specs.Refusals.{check_code};
ghost use Rattle.net.specs.Corners.{name_of};
ghost use Rattle.net.specs.Refusals.{check_name};
ghost use Rattle.exports.specs.Answers.{CrossBytes};

use frame::{Refusal, number_of};
use grid::{CornerName, TriangleCode};
use net::Edge;
use octets::put8;

// Checking a word as a triangle code.
pub fn grid_check_triangle(word: u64) -> u64
    ensures { result ≡ check_code (code_of word) }
{
    number_of(TriangleCode(word).check())
}

// Checking a word as a corner name.
pub fn grid_check_name(word: u64) -> u64
    ensures { result ≡ check_name (name_of word) }
{
    number_of(grid::check_name(CornerName(word)))
}

// The code and the edge's number there, in sixteen bytes. How the corners turned is not asked for, so that the neighbour
// comes back in registers.
fn cross(code: TriangleCode, edge: u64, out: &mut [u8]) -> Result<(), Refusal>
    ensures { CrossBytes code edge out.old (told_number result) out.new }
{
    corners::refuse_numbered(code, edge)?;
    if out.len() < 16 {
        return Err(Refusal::ShortList);
    }
    let here = Edge { code, number: edge };
    let there = here.neighbour();
    put8(there.code.0, out);
    put8(there.number, &mut out[8..]);
    Ok(())
}

// Crossing an edge.
pub fn grid_cross(code: u64, edge: u64, out: &mut [u8]) -> u64
    ensures { CrossBytes (code_of code) edge out.old result out.new }
{
    number_of(cross(TriangleCode(code), edge, out))
}
