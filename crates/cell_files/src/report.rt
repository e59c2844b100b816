// What mending says on standard error: a line for each change, and a closing line. The lines are gathered in a text,
// which is written whenever it is full.
ghost use Rattle.std.specs.Prelude.{◌+◌, ◌≤◌, length};

use crate::telling;
use lines::Text;
use words::TriangleCode;

// ---- why a word is dropped

// Document 02, 2026-10: 1 invalid, 3 equal to an earlier word, 4 inside another word.
fn put_why<const N: usize>(reason: u64, out: &mut Text<N>)
    requires { length out.old + 100 ≤ N }
    ensures { length out.new ≤ length out.old + 100 }
{
    match reason {
        1 => texts::put_offence(1, out),
        3 => out.push_bytes(b"equal to an earlier word"),
        _ => out.push_bytes(b"inside another word"),
    }
}

// Why a word is dropped; of an invalid one also by which refusal.
fn put_reason<const N: usize>(w: u64, reason: u64, out: &mut Text<N>)
    requires { length out.old + 202 ≤ N }
    ensures { length out.new ≤ length out.old + 202 }
{
    if let Err(f) = TriangleCode(w).check() {
        telling::put_invalid(f, out);
    } else {
        put_why(reason, out);
    }
}

// ---- the lines

// A code with its word; a word that is no code alone.
fn put_shown<const N: usize>(w: u64, out: &mut Text<N>)
    requires { length out.old + 46 ≤ N }
    ensures { length out.new ≤ length out.old + 46 }
{
    if TriangleCode(w).check().is_err() {
        out.push_word(w);
    } else {
        texts::put_code(w, out);
    }
}

// The line of the word that is dropped from a place.
fn put_dropped<const N: usize>(place: u64, w: u64, reason: u64, out: &mut Text<N>)
    requires { length out.old + 300 ≤ N }
    ensures { length out.new ≤ length out.old + 300 }
{
    out.push_bytes(b"place ");
    out.push_decimal(place);
    out.push_bytes(b": ");
    put_shown(w, out);
    out.push_bytes(b" is dropped: ");
    put_reason(w, reason, out);
    out.push(b'\n');
}

// The line of a merge, by its parent.
fn put_merge<const N: usize>(w: u64, out: &mut Text<N>)
    requires { length out.old + 300 ≤ N }
    ensures { length out.new ≤ length out.old + 300 }
{
    texts::put_code(w, out);
    out.push_bytes(b" takes the place of its four children\n");
}

// How many of the reasons are this one.
fn count_of(reasons: &[u64], reason: u64) -> u64 {
    reasons.iter().filter(|other| **other == reason).count() as u64
}

// How many words are dropped by a reason.
fn put_count<const N: usize>(reasons: &[u64], reason: u64, out: &mut Text<N>)
    requires { length out.old + 121 ≤ N }
    ensures { length out.new ≤ length out.old + 121 }
{
    put_why(reason, out);
    out.push(b' ');
    out.push_decimal(count_of(reasons, reason));
}

// How many words are dropped, reason by reason.
fn put_counts<const N: usize>(reasons: &[u64], out: &mut Text<N>)
    requires { length out.old + 370 ≤ N }
    ensures { length out.new ≤ length out.old + 370 }
{
    put_count(reasons, 1, out);
    out.push_bytes(b", ");
    put_count(reasons, 3, out);
    out.push_bytes(b", ");
    put_count(reasons, 4, out);
}

// How many words came in, and how many go out.
fn put_sizes<const N: usize>(taken: u64, left: u64, out: &mut Text<N>)
    requires { length out.old + 61 ≤ N }
    ensures { length out.new ≤ length out.old + 61 }
{
    out.push_bytes(b"words in ");
    out.push_decimal(taken);
    out.push_bytes(b", words out ");
    out.push_decimal(left);
}

// The closing line: how many words there were and are, and how many changes by each reason.
fn put_closing<const N: usize>(taken: u64, left: u64, reasons: &[u64], out: &mut Text<N>)
    requires { length out.old + 500 ≤ N }
    ensures { length out.new ≤ length out.old + 500 }
{
    put_sizes(taken, left, out);
    out.push_bytes(b"; dropped: ");
    put_counts(reasons, out);
    out.push_bytes(b"; merges ");
    out.push_decimal(count_of(reasons, 5));
    out.push(b'\n');
}

// ---- the report

// Writes the lines so far, where there may be no room for one more.
fn make_room(err: &impl Print, out: &mut Text<65536>)
    ensures { length out.new ≤ 65000 }
{
    if 65000 < out.len() {
        let _ = err.write_all(out.as_bytes());
        out.clear();
    }
}

// The words that are dropped, in the order of the list.
fn tell_dropped(err: &impl Print, words: &[u64], why: &[u64], out: &mut Text<65536>) {
    for (place, (w, reason)) in words.iter().zip(why).enumerate() {
        if *reason != 0 {
            make_room(err, out);
            put_dropped(place as u64, *w, *reason, out);
        }
    }
}

// The merges of the change list, in its order.
fn tell_merges(err: &impl Print, changed: &[u64], reasons: &[u64], out: &mut Text<65536>) {
    for (w, reason) in changed.iter().zip(reasons) {
        if *reason == 5 {
            make_room(err, out);
            put_merge(*w, out);
        }
    }
}

// Reports how a list was mended: `why` has the reason of each of its words, 0 for one that is kept, `changed` and
// `reasons` are the change list, and `left` words are in the mended one.
pub fn tell_all(
    err: &impl Print,
    words: &[u64],
    why: &[u64],
    changed: &[u64],
    reasons: &[u64],
    left: u64,
) {
    let mut out = Text::new();
    tell_dropped(err, words, why, &mut out);
    tell_merges(err, changed, reasons, &mut out);
    make_room(err, &mut out);
    put_closing(words.len() as u64, left, reasons, &mut out);
    let _ = err.write_all(out.as_bytes());
}
