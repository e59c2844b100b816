// Reading the arguments of a call: each is the next word of its line, and None where that is no such argument.
ghost use Rattle.std.specs.Prelude.{◌≤◌, length, IfSome};

use grid::{CornerName, Direction, TriangleCode};
use lines::Words;

// That no word follows.
pub fn end(words: &Words<'_>) -> Option<()> {
    if words.is_empty() { Some(()) } else { None }
}

pub fn number(words: &mut Words<'_>) -> Option<u64> {
    lines::read_number(words.next()?)
}

pub fn code(words: &mut Words<'_>) -> Option<u64> {
    lines::read_code_or_word(words.next()?)
}

pub fn name(words: &mut Words<'_>) -> Option<u64> {
    lines::read_hexadecimal(words.next()?)
}

pub fn signed(words: &mut Words<'_>) -> Option<i32> {
    lines::read_signed(words.next()?)
}

pub fn towards(words: &mut Words<'_>) -> Option<Direction> {
    let x = signed(words)?;
    let y = signed(words)?;
    let z = signed(words)?;
    Some(Direction { x, y, z })
}

// ---- all arguments of a call

// A code alone.
pub fn one_code(mut words: Words<'_>) -> Option<TriangleCode> {
    let w = code(&mut words)?;
    end(&words)?;
    Some(TriangleCode(w))
}

// A corner name alone.
pub fn one_name(mut words: Words<'_>) -> Option<CornerName> {
    let w = name(&mut words)?;
    end(&words)?;
    Some(CornerName(w))
}

pub fn code_and_number(mut words: Words<'_>) -> Option<(TriangleCode, u64)> {
    let w = code(&mut words)?;
    let n = number(&mut words)?;
    end(&words)?;
    Some((TriangleCode(w), n))
}

pub fn degree_and_direction(mut words: Words<'_>) -> Option<(u64, Direction)> {
    let degree = number(&mut words)?;
    let d = towards(&mut words)?;
    end(&words)?;
    Some((degree, d))
}

// ---- lent lists, and lists

// How many places a lent list has: at most so many.
pub fn room(words: &mut Words<'_>, most: usize) -> Option<usize>
    ensures { IfSome result (λ n. n ≤ most) }
{
    let n = number(words)? as usize;
    if most < n { None } else { Some(n) }
}

// How many places a lent list has, and whether the line asked for that.
#[derive(Clone, Copy)]
pub struct Places {
    pub shown: bool,
    pub count: usize,
}

// The optional last argument of a call with a lent list, which has `usual` places without it, and `most` at most.
pub fn last_places(mut words: Words<'_>, usual: usize, most: usize) -> Option<Places>
    requires { usual ≤ most }
    ensures { IfSome result (λ p. p.count ≤ most) }
{
    if words.is_empty() {
        return Some(Places {
            shown: false,
            count: usual,
        });
    }
    let count = room(&mut words, most)?;
    end(&words)?;
    Some(Places { shown: true, count })
}

// All words that follow, each read in one way, into a list that has room for them: the places that they fill.
pub fn all<'a, T: Copy, F: Fn(&[u8]) -> Option<T> + Drop>(
    words: Words<'_>,
    read: F,
    list: &'a mut [T],
) -> Option<&'a [T]>
    requires { F.IsAlwaysCallable read }
    ensures { IfSome result (λ read. length read.now ≤ length list.old) }
{
    let mut n = 0;
    for word in words {
        *list.get_mut(n)? = read(word)?;
        n += 1;
    }
    Some(&list[..n])
}
