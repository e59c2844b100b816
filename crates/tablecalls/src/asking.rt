// Reading the calls on the table that is held.
ghost use Rattle.std.specs.Prelude.{IfSome};
ghost use Rattle.tablecalls.specs.Room.{AskedInRoom};

use crate::held::Shown;
use crate::laying::Listing;
use grid::TriangleCode;
use lines::Words;
use replies::arguments;
use tables::Deed;
use texts::Call;

// How many places the console has for readings and for owners, and for counts and for sums.
const PLACES: usize = 81921;

const PARENTS: usize = 20481;

// A call: a fresh table of a degree, or one of this list of readings; another list for the table that is open; what a
// desk does with a triangle; work-out; those that change nothing; and those on the file of a name.
#[derive(Clone, Copy)]
pub enum Asked<'a> {
    Fresh(u64),
    Table(u64, Listing<'a, i32>),
    Owners(Listing<'a, u8>),
    Counts(Listing<'a, u64>),
    Sums(Listing<'a, u64>),
    Desk(u64, TriangleCode, Deed),
    WorkOut,
    Get(TriangleCode),
    Mark(TriangleCode),
    Coarse(TriangleCode),
    Show(Shown),
    Save(&'a [u8]),
    Open(&'a [u8]),
}

fn table(mut words: Words<'_>) -> Option<Asked<'_>>
    ensures { IfSome result AskedInRoom }
{
    let degree = arguments::number(&mut words)?;
    if words.is_empty() {
        return Some(Asked::Fresh(degree));
    }
    Some(Asked::Table(degree, Listing::read(words, PLACES)?))
}

fn owners(words: Words<'_>) -> Option<Asked<'_>>
    ensures { IfSome result AskedInRoom }
{
    if words.is_empty() {
        return Some(Asked::Show(Shown::Owners));
    }
    Some(Asked::Owners(Listing::read(words, PLACES)?))
}

// What stands after DESK CODE: of set the reading, of the others nothing.
fn deed(call: Call, words: &mut Words<'_>) -> Option<Deed> {
    match call {
        Call::Take => Some(Deed::Taking),
        Call::Set => Some(Deed::Setting(arguments::signed(words)?)),
        Call::Clear => Some(Deed::Clearing),
        _ => Some(Deed::Giving),
    }
}

fn desk(call: Call, mut words: Words<'_>) -> Option<Asked<'_>>
    ensures { IfSome result AskedInRoom }
{
    let desk = arguments::number(&mut words)?;
    let w = arguments::code(&mut words)?;
    let deed = deed(call, &mut words)?;
    arguments::end(&words)?;
    Some(Asked::Desk(desk, TriangleCode(w), deed))
}

// A call on a triangle that changes nothing.
fn triangle(call: Call, words: Words<'_>) -> Option<Asked<'_>>
    ensures { IfSome result AskedInRoom }
{
    let t = arguments::one_code(words)?;
    Some(match call {
        Call::Get => Asked::Get(t),
        Call::Mark => Asked::Mark(t),
        _ => Asked::Coarse(t),
    })
}

fn coarse(words: Words<'_>) -> Option<Asked<'_>>
    ensures { IfSome result AskedInRoom }
{
    if words.is_empty() {
        return Some(Asked::Show(Shown::Coarse));
    }
    triangle(Call::Coarse, words)
}

// A call that is its name alone.
fn alone<'a>(words: Words<'a>, asked: Asked<'a>) -> Option<Asked<'a>>
    ensures { AskedInRoom asked.entry → IfSome result AskedInRoom }
{
    if words.is_empty() { Some(asked) } else { None }
}

// The name of a file: the rest of the line, but for blanks at its end.
fn file_name<'a>(words: &Words<'a>) -> Option<&'a [u8]> {
    let rest = words.rest();
    let last = rest
        .iter()
        .rposition(|c| !matches!(c, b' ' | b'\t' | b'\r'))?;
    Some(&rest[..=last])
}

// What a call asks, by its arguments; None where they cannot be read.
pub fn read(call: Call, words: Words<'_>) -> Option<Asked<'_>>
    ensures { IfSome result AskedInRoom }
{
    match call {
        Call::Table => table(words),
        Call::Take | Call::Clear | Call::Give | Call::Set => desk(call, words),
        Call::Get | Call::Mark => triangle(call, words),
        Call::Readings => alone(words, Asked::Show(Shown::Readings)),
        Call::Owners => owners(words),
        Call::Coarse => coarse(words),
        Call::WorkOut => alone(words, Asked::WorkOut),
        Call::Counts => Some(Asked::Counts(Listing::read(words, PARENTS)?)),
        Call::Sums => Some(Asked::Sums(Listing::read(words, PARENTS)?)),
        Call::Save => Some(Asked::Save(file_name(&words)?)),
        Call::Open => Some(Asked::Open(file_name(&words)?)),
        // No other call is on the table.
        _ => None,
    }
}
