// The calls of document 02, 2026-12, for a C host: plain numbers and lent bytes in, a refusal number out. The answer
// goes to the bytes, eight for a number, most significant first. The crate host, above it, exports them.
#![tactic(auto)]

ghost use Rattle.std.specs.Prelude.{[], ◌∷◌};
ghost use Rattle.frame.specs.Refusals.{told_number};
ghost use Rattle.octets.specs.Bytes.{bytes};
ghost use Rattle.words.specs.Family.{code_of};
ghost use Rattle.net.specs.Corners.{name_of};
ghost use Rattle.exports.specs.Promises.{Delivered};
ghost use Rattle.host_opposites.specs.Answers.{OppositeBytes, OppositeNameBytes};

use frame::{Refusal, number_of};
use octets::put8;
use words::{CornerName, TriangleCode};

// A word in eight bytes; else 9, where there are fewer.
fn put_word(word: u64, out: &mut [u8]) -> Result<(), Refusal>
    ensures { Delivered 0 (bytes 8 (word ∷ [])) 8 out.old (told_number result) out.new }
{
    if out.len() < 8 {
        return Err(Refusal::ShortList);
    }
    put8(word, out);
    Ok(())
}

// The code of the opposite triangle, in eight bytes.
fn opposite(code: TriangleCode, out: &mut [u8]) -> Result<(), Refusal>
    ensures { OppositeBytes code out.old (told_number result) out.new }
{
    let triangle = opposites::opposite(code)?;
    put_word(triangle.0, out)
}

// The opposite of a triangle.
pub fn grid_opposite(code: u64, out: &mut [u8]) -> u64
    ensures { OppositeBytes (code_of code) out.old result out.new }
{
    number_of(opposite(TriangleCode(code), out))
}

// The name of the opposite corner, in eight bytes.
fn opposite_name(name: CornerName, out: &mut [u8]) -> Result<(), Refusal>
    ensures { OppositeNameBytes name out.old (told_number result) out.new }
{
    let corner = opposites::opposite_name(name)?;
    put_word(corner.0, out)
}

// The opposite of a corner.
pub fn grid_opposite_name(name: u64, out: &mut [u8]) -> u64
    ensures { OppositeNameBytes (name_of name) out.old result out.new }
{
    number_of(opposite_name(CornerName(name), out))
}
