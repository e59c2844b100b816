// The calls on the table that is held: each is read from its line (asking), then made, and what came of it is told.
ghost use Rattle.std.specs.Prelude.{◌≡◌, ◌+◌, ◌≤◌, length, IfSome, MatchOption};
ghost use Rattle.tablecalls.specs.Room.{AskedInRoom, HeldInRoom, SameLists, TaskInRoom};

use crate::asking::Asked;
use crate::held::{Held, Table, Task};
use crate::laying::Listing;
use crate::{asking, held, items, laying, showing};
use coarse::Tally;
use grid::{Refusal, TriangleCode};
use lines::{Text, Words};
use marks::Mark;
use replies::answers;
use tables::{Deed, Sounding, TableRefusal};
use texts::Call;

// ---- telling

fn put_length<const N: usize>(n: usize, out: &mut Text<N>)
    requires { length out.old + 40 ≤ N }
    ensures { length out.new ≤ length out.old + 40 }
{
    out.push_decimal(n as u64);
    out.push_bytes(b" places");
}

pub fn put_opened<const N: usize>(held: Held, out: &mut Text<N>)
    requires { length out.old + 100 ≤ N }
    ensures { length out.new ≤ length out.old + 100 }
{
    out.push_bytes(b"degree ");
    out.push_decimal(held.degree);
    out.push_bytes(b", ");
    put_length(held.readings, out);
}

fn put_none_open<const N: usize>(out: &mut Text<N>)
    requires { length out.old + 100 ≤ N }
    ensures { length out.new ≤ length out.old + 100 }
{
    out.push_bytes(b"error: no table is open; table DEGREE opens one");
}

// A refusal; with 23 its place.
pub fn put_refused<const N: usize>(f: TableRefusal, out: &mut Text<N>)
    requires { length out.old + 200 ≤ N }
    ensures { length out.new ≤ length out.old + 200 }
{
    match f {
        TableRefusal::Call(f) => answers::refused(f, out),
        TableRefusal::BadNumber(place) => {
            out.push_bytes(b"refused 23: ");
            texts::put_reason(23, out);
            out.push_bytes(b"; place ");
            out.push_decimal(place);
        }
    }
}

fn put_written<const N: usize>(answer: Result<(), TableRefusal>, out: &mut Text<N>)
    requires { length out.old + 200 ≤ N }
    ensures { length out.new ≤ length out.old + 200 }
{
    match answer {
        Ok(()) => out.push_bytes(b"ok"),
        Err(f) => put_refused(f, out),
    }
}

fn put_sounding<const N: usize>(answer: Result<Sounding, TableRefusal>, out: &mut Text<N>)
    requires { length out.old + 200 ≤ N }
    ensures { length out.new ≤ length out.old + 200 }
{
    match answer {
        Ok(Some(x)) => items::put_millimetres(x, out),
        Ok(None) => out.push_bytes(b"no reading"),
        Err(f) => put_refused(f, out),
    }
}

fn put_mark<const N: usize>(answer: Result<Mark, TableRefusal>, out: &mut Text<N>)
    requires { length out.old + 600 ≤ N }
    ensures { length out.new ≤ length out.old + 600 }
{
    match answer {
        Ok(mark) => markcalls::put_mark(mark, out),
        Err(f) => put_refused(f, out),
    }
}

fn put_stored<const N: usize>(answer: Result<Tally, Refusal>, out: &mut Text<N>)
    requires { length out.old + 200 ≤ N }
    ensures { length out.new ≤ length out.old + 200 }
{
    match answer {
        Ok(t) => items::put_tally(t, out),
        Err(f) => answers::refused(f, out),
    }
}

// ---- making the call

// The table of a list of readings. With it come the other lists: all is nobody's, and all counts and sums are 0.
fn open<const N: usize>(
    degree: u64,
    list: &Listing<'_, i32>,
    table: &mut Table<'_>,
    out: &mut Text<N>,
)
    requires { length out.old + 200 ≤ N }
    ensures text { length out.new ≤ length out.old + 200 }
    ensures room { list.entry.now.length ≤ 81921 → IfSome table.new.held HeldInRoom }
    ensures lists { SameLists table.old table.new }
{
    let n = list.length;
    let parents = held::parents_of(degree);
    let held = Held {
        degree,
        readings: n,
        owners: n,
        counts: parents,
        sums: parents,
    };
    list.lay(table.readings);
    Listing::filled(n, 0).lay(table.owners);
    Listing::filled(parents, 0).lay(table.counts);
    Listing::filled(parents, 0).lay(table.sums);
    table.held = Some(held);
    put_opened(held, out);
}

fn open_fresh<const N: usize>(degree: u64, table: &mut Table<'_>, out: &mut Text<N>)
    requires { length out.old + 200 ≤ N }
    ensures text { length out.new ≤ length out.old + 200 }
    ensures room { IfSome table.old.held HeldInRoom → IfSome table.new.held HeldInRoom }
    ensures lists { SameLists table.old table.new }
{
    match refusing::refuse_degree(degree) {
        Ok(()) => open(degree, &laying::fresh(degree), table, out),
        Err(f) => answers::refused(f, out),
    }
}

// Of a triangle one degree up.
fn stored(t: TriangleCode, held: Held, table: &Table<'_>) -> Result<Tally, Refusal> {
    showing::check_parent(held, t)?;
    Ok(items::tally_at(ordering::place_of(t) as usize, table))
}

fn carry_out(
    deed: Deed,
    desk: u64,
    degree: u64,
    t: TriangleCode,
    list: &mut [i32],
    owners: &mut [u8],
    counts: &mut [u64],
    sums: &mut [u64],
) -> Result<(), TableRefusal> {
    match deed {
        Deed::Taking => soundings::take(desk, degree, t, list, owners, counts, sums),
        Deed::Setting(x) => soundings::set(desk, degree, t, x, list, owners, counts, sums),
        Deed::Clearing => soundings::clear(desk, degree, t, list, owners, counts, sums),
        Deed::Giving => soundings::give(desk, degree, t, list, owners, counts, sums),
    }
}

// On the places that are the table's own. Where a list has fewer, nothing is written.
fn on_own<const N: usize>(
    asked: Asked<'_>,
    held: Held,
    readings: &mut [i32],
    owners: &mut [u8],
    counts: &mut [u64],
    sums: &mut [u64],
    out: &mut Text<N>,
) -> Option<()>
    requires { length out.old + 600 ≤ N }
    ensures { MatchOption result (out.new ≡ out.old) (λ _. length out.new ≤ length out.old + 600) }
{
    let degree = held.degree;
    let list = readings.get_mut(..held.readings)?;
    let owners = owners.get_mut(..held.owners)?;
    let counts = counts.get_mut(..held.counts)?;
    let sums = sums.get_mut(..held.sums)?;
    match asked {
        Asked::Desk(desk, t, deed) => put_written(
            carry_out(deed, desk, degree, t, list, owners, counts, sums),
            out,
        ),
        Asked::WorkOut => put_written(soundings::work_out(degree, list, counts, sums), out),
        Asked::Get(t) => put_sounding(soundings::get(degree, t, list), out),
        Asked::Mark(t) => put_mark(marks::table_mark(degree, t, list), out),
        _ => return None,
    }
    Some(())
}

// On the table that is open.
fn on_held<'a, const N: usize>(
    asked: Asked<'a>,
    mut held: Held,
    table: &mut Table<'_>,
    out: &mut Text<N>,
) -> Option<Task<'a>>
    requires { length out.old + 16000 ≤ N }
    ensures text { length out.new ≤ length out.old + 16000 }
    ensures room { AskedInRoom asked.entry → HeldInRoom held → IfSome table.old.held HeldInRoom
        → IfSome table.new.held HeldInRoom × IfSome result TaskInRoom }
    ensures lists { SameLists table.old table.new }
{
    match asked {
        Asked::Owners(list) => {
            list.lay(table.owners);
            held.owners = list.length;
            table.held = Some(held);
            put_length(list.length, out);
        }
        Asked::Counts(list) => {
            list.lay(table.counts);
            held.counts = list.length;
            table.held = Some(held);
            put_length(list.length, out);
        }
        Asked::Sums(list) => {
            list.lay(table.sums);
            held.sums = list.length;
            table.held = Some(held);
            put_length(list.length, out);
        }
        Asked::Coarse(t) => put_stored(stored(t, held, table), out),
        Asked::Show(shown) => {
            return Some(Task::Show(showing::show(shown, held, table, out)?));
        }
        Asked::Save(name) => return Some(Task::Save(held, name)),
        _ => {
            let own = on_own(
                asked,
                held,
                table.readings,
                table.owners,
                table.counts,
                table.sums,
                out,
            );
            if own.is_none() {
                put_none_open(out);
            }
        }
    }
    None
}

fn make<'a, const N: usize>(
    asked: Asked<'a>,
    table: &mut Table<'_>,
    out: &mut Text<N>,
) -> Option<Task<'a>>
    requires { length out.old + 16000 ≤ N }
    ensures text { length out.new ≤ length out.old + 16000 }
    ensures room { AskedInRoom asked.entry → IfSome table.old.held HeldInRoom
        → IfSome table.new.held HeldInRoom × IfSome result TaskInRoom }
    ensures lists { SameLists table.old table.new }
{
    match asked {
        Asked::Fresh(degree) => open_fresh(degree, table, out),
        Asked::Table(degree, list) => open(degree, &list, table, out),
        Asked::Open(name) => return Some(Task::Open(name)),
        _ => match table.held {
            Some(held) => return on_held(asked, held, table, out),
            None => put_none_open(out),
        },
    }
    None
}

// The answer of a call by its arguments, and what is left to do then.
pub fn answer<'a, const N: usize>(
    call: Call,
    words: Words<'a>,
    table: &mut Table<'_>,
    out: &mut Text<N>,
) -> Option<Task<'a>>
    requires { length out.old + 16000 ≤ N }
    ensures text { length out.new ≤ length out.old + 16000 }
    ensures room { IfSome table.old.held HeldInRoom
        → IfSome table.new.held HeldInRoom × IfSome result TaskInRoom }
    ensures lists { SameLists table.old table.new }
{
    match asking::read(call, words) {
        Some(asked) => make(asked, table, out),
        None => {
            answers::put_usage(call, out);
            None
        }
    }
}
