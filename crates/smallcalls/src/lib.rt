// The console's calls on the small form of a code (document 02, 2026-11).
#![tactic(auto)]

ghost use Rattle.std.specs.Prelude.{◌+◌, ◌≤◌, length};

use grid::Refusal;
use harbour::{SmallCode, SmallStep};
use lines::{Text, Words};
use replies::{answers, arguments};
use texts::Call;

// ---- reading

// 0x and 1 to 8 hexadecimal digits, whose number is below 2^32.
fn small(words: &mut Words<'_>) -> Option<SmallCode> {
    let word = words.next()?;
    if 10 < word.len() {
        return None;
    }
    let n = lines::read_hexadecimal(word)?;
    Some(SmallCode(u32::try_from(n).ok()?))
}

// A small word, and no more.
fn one_small(mut words: Words<'_>) -> Option<SmallCode> {
    let s = small(&mut words)?;
    arguments::end(&words)?;
    Some(s)
}

// ---- writing

// A small code that a call answers: the code as document 01 writes it, and its small word.
fn put_small<const N: usize>(s: SmallCode, out: &mut Text<N>)
    requires { length out.old + 40 ≤ N }
    ensures { length out.new ≤ length out.old + 40 }
{
    if let Ok(t) = s.read() {
        texts::put_digits(t.0, out);
    }
    out.push(b' ');
    out.push_small_word(s.0);
}

fn small_answer<const N: usize>(answer: Result<SmallCode, Refusal>, out: &mut Text<N>)
    requires { length out.old + 200 ≤ N }
    ensures { length out.new ≤ length out.old + 200 }
{
    match answer {
        Ok(s) => put_small(s, out),
        Err(f) => answers::refused(f, out),
    }
}

fn step_answer<const N: usize>(answer: Result<SmallStep, Refusal>, out: &mut Text<N>)
    requires { length out.old + 200 ≤ N }
    ensures { length out.new ≤ length out.old + 200 }
{
    match answer {
        Ok(s) => {
            put_small(s.code, out);
            answers::put_shared(s.edge, s.first, s.second, out);
        }
        Err(f) => answers::refused(f, out),
    }
}

// ---- the calls

// None where the arguments cannot be read.
pub fn answer<const N: usize>(call: Call, mut words: Words<'_>, out: &mut Text<N>) -> Option<()>
    requires { length out.old + 15000 ≤ N }
    ensures { length out.new ≤ length out.old + 15000 }
{
    match call {
        Call::Small => small_answer(harbour::write(arguments::one_code(words)?), out),
        Call::Large => answers::code(one_small(words)?.read(), out),
        Call::CheckSmall => answers::check(one_small(words)?.check(), out),
        Call::CrossSmall => {
            let s = small(&mut words)?;
            let edge = arguments::number(&mut words)?;
            arguments::end(&words)?;
            step_answer(s.cross(edge), out);
        }
        Call::FileSmall => {
            let (degree, d) = arguments::degree_and_direction(words)?;
            small_answer(harbour::file(degree, d), out);
        }
        _ => return None,
    }
    Some(())
}
