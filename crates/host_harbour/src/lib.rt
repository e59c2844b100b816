// The calls of document 02, 2026-11, on the small form of a code, for a C host: plain numbers and lent bytes in, a
// refusal number out. A small code goes to four bytes, any other number to eight, most significant first. The crate
// host, above it, exports them.
#![tactic(auto)]

ghost use Rattle.std.specs.Prelude.{◌≡◌};
ghost use Rattle.frame.specs.Refusals.{told_number};
ghost use Rattle.words.specs.Family.{code_of};
ghost use Rattle.grid.specs.Writing.{towards};
ghost use Rattle.harbour.specs.Small.{small_code};
ghost use Rattle.harbour.specs.Refusals.{check_small};
ghost use Rattle.host_harbour.specs.Answers.{SmallBytes, LargeBytes, CrossSmallBytes, FileSmallBytes};

use filing::Direction;
use frame::{Refusal, number_of};
use harbour::SmallCode;
use octets::{put4, put8};
use words::TriangleCode;

// The small code of a code, in four bytes.
fn small(code: TriangleCode, out: &mut [u8]) -> Result<(), Refusal>
    ensures { SmallBytes code out.old (told_number result) out.new }
{
    let written = harbour::write(code)?;
    if out.len() < 4 {
        return Err(Refusal::ShortList);
    }
    put4(written.0, out);
    Ok(())
}

// Writing the small form of a code.
pub fn grid_small(code: u64, out: &mut [u8]) -> u64
    ensures { SmallBytes (code_of code) out.old result out.new }
{
    number_of(small(TriangleCode(code), out))
}

// The code of a small one, in eight bytes.
fn large(code: SmallCode, out: &mut [u8]) -> Result<(), Refusal>
    ensures { LargeBytes code out.old (told_number result) out.new }
{
    let read = code.read()?;
    if out.len() < 8 {
        return Err(Refusal::ShortList);
    }
    put8(read.0, out);
    Ok(())
}

// Reading a small code.
pub fn grid_large(word: u32, out: &mut [u8]) -> u64
    ensures { LargeBytes (small_code word) out.old result out.new }
{
    number_of(large(SmallCode(word), out))
}

// Checking a word as a small code.
pub fn grid_check_small(word: u32) -> u64
    ensures { result ≡ check_small (small_code word) }
{
    number_of(SmallCode(word).check())
}

// The small code, and the edge's number there, in twelve bytes. How the corners turned is dropped.
fn cross_small(code: SmallCode, edge: u64, out: &mut [u8]) -> Result<(), Refusal>
    ensures { CrossSmallBytes code edge out.old (told_number result) out.new }
{
    let step = code.cross(edge)?;
    if out.len() < 12 {
        return Err(Refusal::ShortList);
    }
    put4(step.code.0, out);
    put8(step.edge, &mut out[4..]);
    Ok(())
}

// Crossing an edge.
pub fn grid_cross_small(word: u32, edge: u64, out: &mut [u8]) -> u64
    ensures { CrossSmallBytes (small_code word) edge out.old result out.new }
{
    number_of(cross_small(SmallCode(word), edge, out))
}

// The small code, in four bytes.
fn file_small(degree: u64, d: Direction, out: &mut [u8]) -> Result<(), Refusal>
    ensures { FileSmallBytes degree d out.old (told_number result) out.new }
{
    let filed = harbour::file(degree, d)?;
    if out.len() < 4 {
        return Err(Refusal::ShortList);
    }
    put4(filed.0, out);
    Ok(())
}

// Filing a direction.
pub fn grid_file_small(degree: u64, x: i32, y: i32, z: i32, out: &mut [u8]) -> u64
    ensures { FileSmallBytes degree (towards x y z) out.old result out.new }
{
    number_of(file_small(degree, Direction { x, y, z }, out))
}
