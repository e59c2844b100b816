// The call that checks a cell list (document 02, 2026-09).
ghost use Rattle.std.specs.Prelude.{◌+◌, ◌≤◌, length};

use cells::Offence;
use lines::{Text, Words};
use replies::arguments;

// The verdict, and its reason in words.
fn put_answer<const N: usize>(verdict: Result<(), Offence>, out: &mut Text<N>)
    requires { length out.old + 200 ≤ N }
    ensures { length out.new ≤ length out.old + 200 }
{
    verdicts::put_verdict(verdict, out);
    if let Err(offence) = verdict {
        out.push_bytes(b": ");
        texts::put_offence(u64::from(offence.reason), out);
    }
}

// None where the arguments cannot be read. A line has no room for more than 500 codes.
pub fn answer<const N: usize>(words: Words<'_>, out: &mut Text<N>) -> Option<()>
    requires { length out.old + 15000 ≤ N }
    ensures { length out.new ≤ length out.old + 15000 }
{
    let mut list = [0u64; 500];
    let codes = arguments::all(words, |w| lines::read_code_or_word(w), &mut list)?;
    put_answer(cells::check(codes), out);
    Some(())
}
