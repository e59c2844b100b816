// What is said on standard error, and the status that goes with it.
ghost use Rattle.std.specs.Prelude.{◌+◌, ◌≤◌, length};

use crate::tally::{Tally, Unread};
use lines::Text;
use sweeps::Unfiled;

// Says a text, which ends the sweep with a status.
pub fn say(err: &impl Print, text: &[u8], status: u8) -> u8
    requires { status ≤ 3 }
    ensures { result ≤ 3 }
{
    let _ = err.write_all(text);
    status
}

pub fn refuse_degree(err: &impl Print) -> u8
    ensures { result ≤ 3 }
{
    say(
        err,
        b"sweep: refused 1: a degree, as field or argument, is above 24\n",
        1,
    )
}

// ---- progress, on a terminal

// Clears the line of the progress.
pub fn clear(err: &impl Print) {
    let _ = err.write_all(b"\r\x1b[K");
}

// How many directions.
fn put_count<const N: usize>(n: u64, out: &mut Text<N>)
    requires { length out.old + 40 ≤ N }
    ensures { length out.new ≤ length out.old + 40 }
{
    out.push_decimal(n);
    out.push_bytes(b" direction");
    if n != 1 {
        out.push(b's');
    }
}

// How many of them are refused.
fn count_of(refused: Option<Unfiled>) -> u64 {
    match refused {
        Some(refused) => refused.count,
        None => 0,
    }
}

fn put_progress<const N: usize>(t: Tally, out: &mut Text<N>)
    requires { length out.old + 200 ≤ N }
    ensures { length out.new ≤ length out.old + 200 }
{
    out.push_bytes(b"\r\x1b[Ksweep: ");
    put_count(t.count, out);
    out.push_bytes(b" so far, ");
    out.push_decimal(count_of(t.refused));
    out.push_bytes(b" refused");
}

// Tells how far the sweep is.
pub fn tell_progress(err: &impl Print, t: Tally) {
    let mut out: Text<200> = Text::new();
    put_progress(t, &mut out);
    let _ = err.write_all(out.as_bytes());
}

// ---- the closing line

// The place of the first one.
fn put_first<const N: usize>(place: u64, out: &mut Text<N>)
    requires { length out.old + 60 ≤ N }
    ensures { length out.new ≤ length out.old + 60 }
{
    out.push_bytes(b", the first at place ");
    out.push_decimal(place);
}

// The first refused direction.
fn put_first_refused<const N: usize>(refused: Unfiled, out: &mut Text<N>)
    requires { length out.old + 200 ≤ N }
    ensures { length out.new ≤ length out.old + 200 }
{
    let number = u64::from(refused.refusal);
    put_first(refused.place, out);
    out.push_bytes(b" with ");
    out.push_decimal(number);
    out.push_bytes(b": ");
    texts::put_reason(number, out);
}

// How many are refused, and the first, where there is one.
fn put_refused<const N: usize>(refused: Option<Unfiled>, out: &mut Text<N>)
    requires { length out.old + 250 ≤ N }
    ensures { length out.new ≤ length out.old + 250 }
{
    out.push_bytes(b", ");
    out.push_decimal(count_of(refused));
    out.push_bytes(b" refused");
    if let Some(refused) = refused {
        put_first_refused(refused, out);
    }
}

// How many were not read, and the first.
fn put_unread<const N: usize>(unread: Unread, out: &mut Text<N>)
    requires { length out.old + 100 ≤ N }
    ensures { length out.new ≤ length out.old + 100 }
{
    out.push_bytes(b"; ");
    out.push_decimal(unread.count);
    out.push_bytes(b" not read");
    put_first(unread.place, out);
}

fn put_closing<const N: usize>(t: Tally, out: &mut Text<N>)
    requires { length out.old + 400 ≤ N }
    ensures { length out.new ≤ length out.old + 400 }
{
    out.push_bytes(b"sweep: ");
    put_count(t.count, out);
    put_refused(t.refused, out);
    if let Some(unread) = t.unread {
        put_unread(unread, out);
    }
    out.push(b'\n');
}

fn status_of(t: Tally) -> u8
    ensures { result ≤ 3 }
{
    if t.unread.is_some() {
        2
    } else if t.refused.is_some() {
        1
    } else {
        0
    }
}

// Says what the sweep came to.
pub fn close(err: &impl Print, t: Tally) -> u8
    ensures { result ≤ 3 }
{
    let mut out: Text<400> = Text::new();
    put_closing(t, &mut out);
    let _ = err.write_all(out.as_bytes());
    status_of(t)
}
