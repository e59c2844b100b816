// Showing a list of the table: the answers of `readings`, and of `owners` and `coarse` without arguments, part by part.
ghost use Rattle.std.specs.Prelude.{◌≡◌, ◌+◌, ◌<◌, ◌≤◌, length, IfSome, OnOk};
ghost use Rattle.words.specs.Refusals.{check_code};
ghost use Rattle.tables.specs.Tables.{places};

use crate::held::{Held, Rest, Shown, Table};
use crate::items::Item;
use crate::{held, items};
use grid::{Refusal, TriangleCode};
use lines::Text;
use replies::answers;

// ---- one place

// A place of the triangles of a degree: its triangle and what is shown of it. `later`: places were shown before.
fn put_place<const N: usize>(degree: u64, place: usize, i: Item, later: bool, out: &mut Text<N>)
    requires { (degree ≤ 6) × (place < places degree) × (length out.old + 90 ≤ N) }
    ensures { length out.new ≤ length out.old + 90 }
{
    out.push_bytes(if later { b", " } else { b": " });
    texts::put_digits(ordering::code_at(degree, place as u64).0, out);
    items::put_item(i, out);
}

// ---- the answer

// All places that are shown. (A table of degree 0 has no triangles one degree up, and shows none.)
fn all(shown: Shown, degree: u64) -> Rest
    requires { degree ≤ 6 }
{
    match shown {
        Shown::Coarse if degree == 0 => Rest {
            shown,
            degree,
            count: 0,
        },
        Shown::Coarse => Rest {
            shown,
            degree: degree - 1,
            count: ordering::codes_of(degree - 1) as usize,
        },
        _ => Rest {
            shown,
            degree,
            count: ordering::codes_of(degree) as usize,
        },
    }
}

// Whether the lists have the places that are shown.
fn check_length(shown: Shown, held: Held, n: usize) -> Result<(), Refusal> {
    match shown {
        Shown::Readings if held.readings != n => Err(Refusal::TableLength),
        Shown::Owners if held.owners != n => Err(Refusal::Owners),
        Shown::Coarse if held.counts != n || held.sums != n => Err(Refusal::SumsLength),
        _ => Ok(()),
    }
}

// All places; or 1, 20, and 22, 25 or 28, where they are not those of the triangles of a degree from 0 to 6, or of
// those one degree up.
fn all_held(shown: Shown, held: Held) -> Result<Rest, Refusal> {
    refusing::refuse_degree(held.degree)?;
    let all = all(shown, held.degree);
    check_length(shown, held, all.count)?;
    Ok(all)
}

// What `coarse` refuses, and of the code 1 to 4 and 20.
pub fn check_parent(held: Held, t: TriangleCode) -> Result<(), Refusal>
    ensures { OnOk result (check_code t ≡ 0) }
{
    if 24 < held.degree {
        return Err(Refusal::Degree);
    }
    t.check()?;
    if words::degree_of(t.0) + 1 != held.degree {
        return Err(Refusal::WrongDegree);
    }
    all_held(Shown::Coarse, held)?;
    Ok(())
}

// How many of the places are counted.
fn count(all: Rest, table: &Table<'_>) -> usize {
    (0..all.count)
        .filter(|place| items::is_counted(items::item_at(all.shown, *place, table)))
        .count()
}

// A word of at most 8 bytes for one, with an s after it for any other count.
fn put_unit<const N: usize>(word: &[u8], count: usize, out: &mut Text<N>)
    requires { (length word.now ≤ 8) × (length out.old + 9 ≤ N) }
    ensures { length out.new ≤ length out.old + 9 }
{
    out.push_bytes(word);
    if count != 1 {
        out.push(b's');
    }
}

fn put_count<const N: usize>(shown: Shown, count: usize, out: &mut Text<N>)
    requires { length out.old + 100 ≤ N }
    ensures { length out.new ≤ length out.old + 100 }
{
    out.push_decimal(count as u64);
    match shown {
        Shown::Readings => put_unit(b" reading", count, out),
        Shown::Owners => out.push_bytes(b" owned"),
        Shown::Coarse => put_unit(b" parent", count, out),
    }
}

// The rest of the places, as many as there is room for after `start`, where this part of the answer begins, and what is
// left of it then. `later`: places were shown before.
fn put_places<const N: usize>(
    rest: Rest,
    later: bool,
    start: usize,
    table: &Table<'_>,
    out: &mut Text<N>,
) -> Option<Rest>
    requires { (length out.old ≤ start + 100) × (start + 8000 ≤ N) }
    ensures text { length out.new ≤ start + 8000 }
    ensures fewer { IfSome result (λ left. left.count < rest.count) }
    ensures in_table { IfSome result (λ left. (left.degree ≤ 6) × (left.count ≤ places left.degree)) }
{
    // (No more is left than there are triangles.)
    let n = held::places_of(rest.degree);
    let first = n.checked_sub(rest.count)?;
    let count = out.len();
    for place in first..n {
        if start + 7900 < out.len() {
            return Some(Rest {
                shown: rest.shown,
                degree: rest.degree,
                count: n - place,
            });
        }
        if let Some(item) = items::item_at(rest.shown, place, table) {
            put_place(rest.degree, place, item, later || count < out.len(), out);
        }
    }
    None
}

// The first part, and what is still to be shown.
pub fn show<const N: usize>(
    shown: Shown,
    held: Held,
    table: &Table<'_>,
    out: &mut Text<N>,
) -> Option<Rest>
    requires { length out.old + 16000 ≤ N }
    ensures text { length out.new ≤ length out.old + 16000 }
    ensures in_table { IfSome result (λ left. (left.degree ≤ 6) × (left.count ≤ places left.degree)) }
{
    match all_held(shown, held) {
        Ok(all) => {
            let start = out.len();
            put_count(shown, count(all, table), out);
            put_places(all, false, start, table, out)
        }
        Err(f) => {
            answers::refused(f, out);
            None
        }
    }
}

// The next part of what is still to be shown.
pub fn go_on<const N: usize>(rest: Rest, table: &Table<'_>, out: &mut Text<N>) -> Option<Rest>
    requires { length out.old + 16000 ≤ N }
    ensures text { length out.new ≤ length out.old + 16000 }
    ensures fewer { IfSome result (λ left. left.count < rest.count) }
    ensures in_table { IfSome result (λ left. (left.degree ≤ 6) × (left.count ≤ places left.degree)) }
{
    let start = out.len();
    put_places(rest, true, start, table, out)
}
