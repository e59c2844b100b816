// The console: one line of text to its answer. The first word names a call, the others are its arguments (texts). It
// holds a table of soundings, which the caller keeps for it.
#![tactic(auto)]

ghost use Rattle.std.specs.Prelude.{◌+◌, ◌≤◌, length, IfSome};
ghost use Rattle.tablecalls.specs.Room.{HeldInRoom, SameLists, TaskInRoom};

use cellcalls::{checking, mends};
use gridcalls::{calls, lists, sweeping};
use lines::{Text, Words};
use replies::{answers, help};
use tablecalls::desks;
pub use tablecalls::held::{Held, Rest, Shown, Table, Task};
use texts::Call;

// The answer of many places goes on.
pub use tablecalls::showing::go_on;

// A line that is too long is skipped whole.
pub fn too_long<const N: usize>(out: &mut Text<N>)
    requires { length out.old + 100 ≤ N }
    ensures { length out.new ≤ length out.old + 100 }
{
    out.push_bytes(b"error: a line has at most 1000 bytes");
}

fn unknown<const N: usize>(out: &mut Text<N>)
    requires { length out.old + 100 ≤ N }
    ensures { length out.new ≤ length out.old + 100 }
{
    out.push_bytes(b"error: no such call; help shows them");
}

// The answer of a call that needs no table; None where its arguments cannot be read.
fn plain_answer<const N: usize>(call: Call, words: Words<'_>, out: &mut Text<N>) -> Option<()>
    requires { length out.old + 15000 ≤ N }
    ensures { length out.new ≤ length out.old + 15000 }
{
    match call {
        Call::Help => help::answer(words, out),
        Call::Check
        | Call::Parent
        | Call::Opposite
        | Call::CheckName
        | Call::NameExact
        | Call::NameT
        | Call::NameDrawn
        | Call::NameBits
        | Call::OppositeName
        | Call::Child
        | Call::Cross
        | Call::Name
        | Call::Exact
        | Call::T
        | Call::Drawn
        | Call::Bits
        | Call::File
        | Call::Back => calls::answer(call, words, out),
        Call::Weights | Call::NameWeights | Call::Ring | Call::List => {
            lists::answer(call, words, out)
        }
        Call::Sweep => sweeping::answer(words, out),
        Call::CheckCells => checking::answer(words, out),
        Call::MendCells => mends::answer(words, out),
        Call::Small | Call::Large | Call::CheckSmall | Call::CrossSmall | Call::FileSmall => {
            smallcalls::answer(call, words, out)
        }
        Call::Paper | Call::PaperName | Call::FromPaper | Call::FromPaperVertex => {
            papercalls::answer(call, words, out)
        }
        _ => {
            unknown(out);
            Some(())
        }
    }
}

// The answer of a call, and what is left to do then.
fn call_answer<'a, const N: usize>(
    call: Call,
    words: Words<'a>,
    table: &mut Table<'_>,
    out: &mut Text<N>,
) -> Option<Task<'a>>
    requires { length out.old + 16000 ≤ N }
    ensures text { length out.new ≤ length out.old + 16000 }
    ensures room { IfSome table.old.held HeldInRoom
        → IfSome table.new.held HeldInRoom × IfSome result TaskInRoom }
    ensures lists { SameLists table.old table.new }
{
    match call {
        Call::Table
        | Call::Take
        | Call::Clear
        | Call::Give
        | Call::Set
        | Call::Get
        | Call::Readings
        | Call::Owners
        | Call::Coarse
        | Call::WorkOut
        | Call::Counts
        | Call::Sums => desks::answer(call, words, table, out),
        _ => {
            if plain_answer(call, words, out).is_none() {
                answers::put_usage(call, out);
            }
            None
        }
    }
}

// The answer of one line, without the line end, and what is left to do then. No word, or a first word that begins with
// #: no answer.
pub fn answer<'a, const N: usize>(
    line: &'a [u8],
    table: &mut Table<'_>,
    out: &mut Text<N>,
) -> Option<Task<'a>>
    requires { length out.old + 16000 ≤ N }
    ensures text { length out.new ≤ length out.old + 16000 }
    ensures room { IfSome table.old.held HeldInRoom
        → IfSome table.new.held HeldInRoom × IfSome result TaskInRoom }
    ensures lists { SameLists table.old table.new }
{
    let mut words = Words::of(line);
    let word = words.next()?;
    if word.starts_with(b"#") {
        return None;
    }
    match texts::call_named(word) {
        Some(call) => call_answer(call, words, table, out),
        None => {
            unknown(out);
            None
        }
    }
}
