// Which numbers of a table of soundings are readings and which are owners, what a number says, and what a deed leaves
// in its place (document 02, 2026-03 and 2026-07). What these mean is said in the crate tables.
#![tactic(auto)]

ghost use Rattle.std.specs.Prelude.{◌≡◌};
ghost use Rattle.tables.specs.Tables.{is_reading, is_bad, said, number};
ghost use Rattle.tables.specs.Owners.{is_desk, is_other, owner_after, sounding_after};
ghost use Rattle.tables.specs.Refusals.{out_of_range};

use tables::{Deed, Sounding};

// The largest reading, in millimetres.
const MOST: i32 = 100000;

// Whether a number is a reading.
pub fn is_reading(x: i32) -> bool
    ensures { result ≡ is_reading x }
{
    (0..=MOST).contains(&x)
}

// Whether a number is neither a reading nor -1.
pub fn is_bad(x: i32) -> bool
    ensures { result ≡ is_bad x }
{
    x < -1 || MOST < x
}

// Whether a number is a desk.
pub fn is_desk(desk: u64) -> bool
    ensures { result ≡ is_desk desk }
{
    matches!(desk, 1 | 2)
}

// Whether a number is neither nobody nor a desk.
pub fn is_other(owner: u8) -> bool
    ensures { result ≡ is_other owner }
{
    2 < owner
}

// What a number of the list says.
pub fn said_of(number: i32) -> Sounding
    ensures { result ≡ said number }
{
    if number == -1 {
        return None;
    }
    Some(number)
}

// ---- what a desk does with a triangle

// 21: of the reading that is to be set.
pub fn is_out_of_range(deed: Deed) -> bool
    ensures { result ≡ out_of_range deed }
{
    match deed {
        Deed::Taking => false,
        Deed::Setting(x) => !is_reading(x),
        Deed::Clearing => false,
        Deed::Giving => false,
    }
}

// The number that a deed leaves for its triangle, which has `before`.
pub fn number_after(deed: Deed, before: i32) -> i32
    ensures { result ≡ number (sounding_after deed (said before)) }
{
    match deed {
        Deed::Taking => before,
        Deed::Setting(x) => x,
        Deed::Clearing => -1,
        Deed::Giving => -1,
    }
}

// Whose the triangle is then, which is `before`'s.
pub fn owner_after(deed: Deed, desk: u8, before: u8) -> u8
    ensures { result ≡ owner_after deed desk before }
{
    match deed {
        Deed::Taking => desk,
        Deed::Setting(_) => before,
        Deed::Clearing => before,
        Deed::Giving => 0,
    }
}
