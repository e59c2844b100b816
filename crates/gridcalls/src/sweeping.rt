// The call that files many directions (document 02, 2026-04), from a list of numbers into a lent list of codes.
ghost use Rattle.std.specs.Prelude.{◌+◌, ◌≤◌, length};

use grid::Refusal;
use lines::{Text, Words};
use replies::places::Entry;
use replies::{answers, arguments, places};
use sweeper::sweep;
use sweeps::Unfiled;

// How many directions were refused, and of the first of them its place and its refusal.
fn put_count<const N: usize>(unfiled: Option<Unfiled>, out: &mut Text<N>)
    requires { length out.old + 200 ≤ N }
    ensures { length out.new ≤ length out.old + 200 }
{
    match unfiled {
        None => out.push_bytes(b"0 refused"),
        Some(u) => {
            out.push_decimal(u.count);
            out.push_bytes(b" refused, first at place ");
            out.push_decimal(u.place);
            out.push_bytes(b" with ");
            out.push_decimal(u64::from(u.refusal));
        }
    }
}

fn put_answer<const N: usize>(answer: Result<Option<Unfiled>, Refusal>, out: &mut Text<N>)
    requires { length out.old + 200 ≤ N }
    ensures { length out.new ≤ length out.old + 200 }
{
    match answer {
        Ok(unfiled) => put_count(unfiled, out),
        Err(f) => answers::refused(f, out),
    }
}

// The places of the list are shown also where the whole call is refused.
fn in_list<const N: usize>(degree: u64, dirs: &[i32], codes: &mut [u64], out: &mut Text<N>)
    requires { (length codes.old ≤ 16) × (length out.old + 15000 ≤ N) }
    ensures { length out.new ≤ length out.old + 15000 }
{
    places::number(codes);
    put_answer(sweep(degree, dirs, codes), out);
    places::put_places(Entry::Word, codes, out);
}

// None where the arguments cannot be read.
pub fn answer<const N: usize>(mut words: Words<'_>, out: &mut Text<N>) -> Option<()>
    requires { length out.old + 15000 ≤ N }
    ensures { length out.new ≤ length out.old + 15000 }
{
    let degree = arguments::number(&mut words)?;
    let room = arguments::room(&mut words, 16)?;
    let mut numbers = [0i32; 48];
    let dirs = arguments::all(words, |w| lines::read_signed(w), &mut numbers)?;
    let mut codes = [0u64; 16];
    in_list(degree, dirs, &mut codes[..room], out);
    Some(())
}
