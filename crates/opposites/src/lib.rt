// Document 02, 2026-12: the opposite of a triangle and of a corner.
#![tactic(auto)]

ghost use Rattle.std.specs.Prelude.{◌≡◌};
ghost use Rattle.words.specs.Refusals.{check_code};
ghost use Rattle.words.specs.Family.{code_told};
ghost use Rattle.corners.specs.Answers.{name_told};
ghost use Rattle.net.specs.Sides.{IsSide, OneToThree};
ghost use Rattle.filing.specs.Means.Opposites.{opposite_side, opposite_of};
ghost use Rattle.opposites.specs.Opposites.{exchanged};
ghost use Rattle.opposites.specs.Answers.{OppositeAnswer, OppositeNameAnswer};

use frame::Refusal;
use knots::rings;
use net::steps;
use words::{CornerName, TriangleCode};

// A triangle, and the number of a corner or an edge there. (`TriangleCode` is another crate's, and so can have no
// method here.)
#[derive(Clone, Copy, Debug, PartialEq, Eq, Hash)]
struct Numbered {
    code: TriangleCode,
    number: u64,
}

// Opposite sides are ten apart, of the twenty from 4 to 23.
fn opposite_side(s: u64) -> u64
    requires { IsSide s }
    ensures { result ≡ opposite_side s }
{
    if s < 14 {
        return s + 10;
    }
    s - 10
}

impl Numbered {
    // The same, opposite on the globe: 1 is kept, and 2 and 3 are exchanged, in the digits and in the number.
    fn opposite(self) -> Numbered
        requires { (check_code self.code ≡ 0) × OneToThree self.number }
        ensures { (result.code ≡ opposite_of self.code) × (result.number ≡ exchanged self.number) }
    {
        let t = self.code;
        let w = t.0 + self.number;
        let r = steps::renumbered(w, 1, opposite_side(words::side_of(w)));
        Numbered {
            code: TriangleCode(r - r % 4),
            number: r % 4,
        }
    }
}

// The triangle opposite to a triangle.
pub fn opposite(t: TriangleCode) -> Result<TriangleCode, Refusal>
    ensures { OppositeAnswer t (code_told result) }
{
    t.check()?;
    // The code alone is asked for; any number would do.
    let here = Numbered { code: t, number: 1 };
    let there = here.opposite();
    Ok(there.code)
}

// The name of the corner opposite to a corner. The opposite triangle need not be the least that has it, so it is named
// anew.
pub fn opposite_name(q: CornerName) -> Result<CornerName, Refusal>
    ensures { OppositeNameAnswer q (name_told result) }
{
    corners::check_name(q)?;
    let here = Numbered {
        code: knots::code_inside(q),
        number: q.0 % 4,
    };
    let there = here.opposite();
    let name = CornerName(there.code.0 + there.number);
    let least = rings::least_name(name);
    Ok(least)
}
