// What the lists of a table of soundings hold that they may not (document 02, 2026-03 and 2026-07), found by going
// through them. Which numbers these are is in the crate meanings, below; what is refused then is in refusing.
#![tactic(auto)]

ghost use Rattle.std.specs.Prelude.{◌≡◌};
ghost use Rattle.tables.specs.Tables.{is_bad, any_bad, least_bad};
ghost use Rattle.tables.specs.Owners.{any_other};

use meanings::{is_bad, is_other};

// Whether the list holds a bad number. It looks at every place whatever it finds, so that it is compiled to vector
// instructions: every call goes through the whole list.
pub fn any_bad(list: &[i32]) -> bool
    ensures { result ≡ any_bad list.now }
{
    let mut found = false;
    for &number in list {
        found |= is_bad(number);
    }
    found
}

// The least bad place; the length where there is none.
pub fn least_bad(list: &[i32]) -> usize
    ensures { result ≡ least_bad list.now }
{
    list.iter()
        .position(
            |number|
                ensures { result ≡ is_bad number.now }
            { is_bad(*number) },
        )
        .unwrap_or(list.len())
}

// Whether the list of owners holds another number than an owner. It looks at every place too.
pub fn any_other(owners: &[u8]) -> bool
    ensures { result ≡ any_other owners.now }
{
    let mut found = false;
    for &owner in owners {
        found |= is_other(owner);
    }
    found
}
