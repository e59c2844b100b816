// The console's calls on the codes of source document 000 (document 02, 2026-13).
#![tactic(auto)]

ghost use Rattle.std.specs.Prelude.{◌+◌, ◌*◌, ◌≤◌, length};

use grid::{CornerName, Refusal, TriangleCode};
use lines::{Text, Words};
use replies::places::Entry;
use replies::{answers, arguments, places};
use texts::Call;

// What is asked in the paper's notation.
#[derive(Clone, Copy)]
pub enum Asked {
    Domain(TriangleCode),
    Vertex(CornerName),
}

// The places of the longest code of each kind, and the most that a line may ask for.
const DOMAIN_PLACES: usize = 27;

const VERTEX_PLACES: usize = 26;

const MOST: usize = 32;

// More digits than the longest code has.
const TOO_MANY: usize = 28;

// ---- to the paper

// The digits of a code, written together. (Each is one digit, 5 at most.)
fn put_code<const N: usize>(code: &[u64], out: &mut Text<N>)
    requires { (length code.now ≤ 32) × (length out.old + 32 ≤ N) }
    ensures { length out.new ≤ length out.old + length code.now }
{
    for d in code {
        out.push(b'0' + (*d % 10) as u8);
    }
}

fn put_answer<const N: usize>(answer: Result<u64, Refusal>, list: &[u64], out: &mut Text<N>)
    requires { (length list.now ≤ 32) × (length out.old + 200 ≤ N) }
    ensures { length out.new ≤ length out.old + 200 }
{
    match answer {
        // No call counts more than the list has; but none of this crate is promised that.
        Ok(count) => {
            if let Some(code) = list.get(..count as usize) {
                put_code(code, out);
            }
        }
        Err(f) => answers::refused(f, out),
    }
}

// The call.
fn fill(q: Asked, out: &mut [u64]) -> Result<u64, Refusal> {
    match q {
        Asked::Domain(t) => paper::to_domain(t, out),
        Asked::Vertex(q) => paper::to_vertex(q, out),
    }
}

fn in_list<const N: usize>(q: Asked, list: &mut [u64], shown: bool, out: &mut Text<N>)
    requires { (length list.old ≤ 32) × (length out.old + 15000 ≤ N) }
    ensures { length out.new ≤ length out.old + 15000 }
{
    places::number(list);
    put_answer(fill(q, list), list, out);
    if shown {
        places::put_places(Entry::Decimal, list, out);
    }
}

// With the places that the rest of the line asks for.
fn with_places<const N: usize>(
    q: Asked,
    words: Words<'_>,
    usual: usize,
    out: &mut Text<N>,
) -> Option<()>
    requires { (usual ≤ 32) × (length out.old + 15000 ≤ N) }
    ensures { length out.new ≤ length out.old + 15000 }
{
    let p = arguments::last_places(words, usual, MOST)?;
    let mut list = [0u64; MOST];
    in_list(q, &mut list[..p.count], p.shown, out);
    Some(())
}

// ---- from the paper

// The value of a decimal digit.
fn digit(c: u8) -> Option<u64> {
    match c {
        b'0'..=b'9' => Some(u64::from(c - b'0')),
        _ => None,
    }
}

// The digits of a word that is of decimal digits alone: as many of them as the list has places for.
fn read_digits<'a>(word: &[u8], list: &'a mut [u64]) -> Option<&'a [u64]> {
    for (i, c) in word.iter().enumerate() {
        let d = digit(*c)?;
        if let Some(place) = list.get_mut(i) {
            *place = d;
        }
    }
    let n = word.len().min(list.len());
    Some(&list[..n])
}

// The only argument, by its digits. Of a longer code as many digits are handed on as are too many.
fn one_digits<'a>(mut words: Words<'_>, list: &'a mut [u64; TOO_MANY]) -> Option<&'a [u64]> {
    let word = words.next()?;
    arguments::end(&words)?;
    read_digits(word, list)
}

// None where the arguments cannot be read.
pub fn answer<const N: usize>(call: Call, mut words: Words<'_>, out: &mut Text<N>) -> Option<()>
    requires { length out.old + 15000 ≤ N }
    ensures { length out.new ≤ length out.old + 15000 }
{
    let mut list = [0u64; TOO_MANY];
    match call {
        Call::Paper => {
            let w = arguments::code(&mut words)?;
            with_places(Asked::Domain(TriangleCode(w)), words, DOMAIN_PLACES, out)
        }
        Call::PaperName => {
            let w = arguments::name(&mut words)?;
            with_places(Asked::Vertex(CornerName(w)), words, VERTEX_PLACES, out)
        }
        Call::FromPaper => {
            let code = one_digits(words, &mut list)?;
            answers::code(paper::from_domain(code), out);
            Some(())
        }
        Call::FromPaperVertex => {
            let code = one_digits(words, &mut list)?;
            answers::name(paper::from_vertex(code), out);
            Some(())
        }
        _ => None,
    }
}
