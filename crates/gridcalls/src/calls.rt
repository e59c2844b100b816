// The calls that lend no list.
ghost use Rattle.std.specs.Prelude.{◌+◌, ◌≤◌, length};

use grid::{
    check_name, coordinates_of, coordinates_of_name, cross, drawn_of, drawn_of_name, file,
    name_back, name_of, ticks_of, ticks_of_name,
};
use lines::{Text, Words};
use opposites::{opposite, opposite_name};
use replies::answers;
use replies::arguments::{self, code_and_number, degree_and_direction, one_code, one_name};
use texts::Call;

// The calls of a code and a number.
fn numbered_answer<const N: usize>(call: Call, words: Words<'_>, out: &mut Text<N>) -> Option<()>
    requires { length out.old + 15000 ≤ N }
    ensures { length out.new ≤ length out.old + 15000 }
{
    let (t, n) = code_and_number(words)?;
    match call {
        Call::Child => answers::code(t.child(n), out),
        Call::Cross => answers::step(cross(t, n), out),
        Call::Name => answers::name(name_of(t, n), out),
        Call::Exact => answers::coordinates(coordinates_of(t, n), out),
        Call::T => answers::ticks(ticks_of(t, n), out),
        Call::Drawn => answers::drawn(t.0, ticks_of(t, n), out),
        Call::Bits => answers::bits(drawn_of(t, n), out),
        _ => return None,
    }
    Some(())
}

// The way back from weights: at most 16 are read.
fn back_answer<const N: usize>(mut words: Words<'_>, out: &mut Text<N>) -> Option<()>
    requires { length out.old + 15000 ≤ N }
    ensures { length out.new ≤ length out.old + 15000 }
{
    let degree = arguments::number(&mut words)?;
    let mut list = [0u64; 16];
    let weights = arguments::all(words, |w| lines::read_number(w), &mut list)?;
    answers::name(name_back(degree, weights), out);
    Some(())
}

// None where the arguments cannot be read.
pub fn answer<const N: usize>(call: Call, words: Words<'_>, out: &mut Text<N>) -> Option<()>
    requires { length out.old + 15000 ≤ N }
    ensures { length out.new ≤ length out.old + 15000 }
{
    match call {
        Call::Check => answers::check(one_code(words)?.check(), out),
        Call::Parent => answers::code(one_code(words)?.parent(), out),
        Call::Opposite => answers::code(opposite(one_code(words)?), out),
        Call::CheckName => answers::check(check_name(one_name(words)?), out),
        Call::NameExact => answers::coordinates(coordinates_of_name(one_name(words)?), out),
        Call::NameT => answers::ticks(ticks_of_name(one_name(words)?), out),
        Call::NameDrawn => {
            let q = one_name(words)?;
            answers::drawn(q.0, ticks_of_name(q), out);
        }
        Call::NameBits => answers::bits(drawn_of_name(one_name(words)?), out),
        Call::OppositeName => answers::name(opposite_name(one_name(words)?), out),
        Call::File => {
            let (degree, d) = degree_and_direction(words)?;
            answers::code(file(degree, d), out);
        }
        Call::Back => return back_answer(words, out),
        _ => return numbered_answer(call, words, out),
    }
    Some(())
}
