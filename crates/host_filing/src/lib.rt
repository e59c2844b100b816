// Filing and listing for a C host (document 02, 2026-01): plain numbers and lent bytes in, a refusal number out. The
// answer goes to the bytes, eight for each number, most significant first. What the calls answer is defined in the
// crate exports, below; checking and crossing are in host_grid; the crate host, above, exports all.
#![tactic(auto)]

ghost use Rattle.frame.specs.Refusals.{told_number};
ghost use Rattle.grid.specs.Writing.{towards};
ghost use Rattle.exports.specs.Answers.{FileBytes, ListBytes};

use frame::{Refusal, number_of};
use grid::Direction;
use octets::{put8, write_words};

// The code, in eight bytes.
fn file(degree: u64, d: Direction, out: &mut [u8]) -> Result<(), Refusal>
    ensures { FileBytes degree d out.old (told_number result) out.new }
{
    let code = grid::file(degree, d)?;
    if out.len() < 8 {
        return Err(Refusal::ShortList);
    }
    put8(code.0, out);
    Ok(())
}

// Filing a direction.
pub fn grid_file(degree: u64, x: i32, y: i32, z: i32, out: &mut [u8]) -> u64
    ensures { FileBytes degree (towards x y z) out.old result out.new }
{
    number_of(file(degree, Direction { x, y, z }, out))
}

// The count and then the codes, in at most fifty-six bytes. All fifty-six are asked for.
fn list(degree: u64, d: Direction, out: &mut [u8]) -> Result<(), Refusal>
    ensures { ListBytes degree d out.old (told_number result) out.new }
{
    let mut codes = [0u64; 6];
    let count = grid::list(degree, d, &mut codes)?;
    if out.len() < 56 {
        return Err(Refusal::ShortList);
    }
    put8(count, out);
    write_words(&codes, count as usize, &mut out[8..]);
    Ok(())
}

// Listing.
pub fn grid_list(degree: u64, x: i32, y: i32, z: i32, out: &mut [u8]) -> u64
    ensures { ListBytes degree (towards x y z) out.old result out.new }
{
    number_of(list(degree, Direction { x, y, z }, out))
}
