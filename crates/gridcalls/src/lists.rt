// The calls that lend a list: of weights, or of triangles.
ghost use Rattle.std.specs.Prelude.{◌+◌, ◌*◌, ◌≤◌, length};

use grid::{CornerName, Direction, Refusal, TriangleCode, list, ring, weights_of, weights_of_name};
use lines::{Text, Words};
use replies::places::Entry;
use replies::{answers, arguments, places};
use texts::Call;

// What is asked of a lent list.
#[derive(Clone, Copy)]
pub enum Asked {
    Weights(TriangleCode, u64),
    NameWeights(CornerName),
    Ring(CornerName),
    Holders(u64, Direction),
}

// Codes, with a comma and a space between them.
fn put_list<const N: usize>(codes: &[u64], out: &mut Text<N>)
    requires { (length codes.now ≤ 16) × (length out.old + 48 * length codes.now ≤ N) }
    ensures { length out.new ≤ length out.old + 48 * length codes.now }
{
    for (i, w) in codes.iter().enumerate() {
        if i != 0 {
            out.push_bytes(b", ");
        }
        texts::put_code(*w, out);
    }
}

// A count and as many codes.
fn put_codes<const N: usize>(count: u64, list: &[u64], out: &mut Text<N>)
    requires { (length list.now ≤ 16) × (length out.old + 1000 ≤ N) }
    ensures { length out.new ≤ length out.old + 1000 }
{
    out.push_decimal(count);
    out.push_bytes(b": ");
    // No call counts more than the list has; but none of this crate is promised that.
    if let Some(codes) = list.get(..count as usize) {
        put_list(codes, out);
    }
}

// The twelve weights.
fn put_weights<const N: usize>(list: &[u64], out: &mut Text<N>)
    requires { length out.old + 1000 ≤ N }
    ensures { length out.new ≤ length out.old + 1000 }
{
    if let Some([first, others @ ..]) = list.get(..12) {
        out.push_decimal(*first);
        places::put_rest(Entry::Decimal, others, out);
    }
}

// The call.
fn fill(q: Asked, out: &mut [u64]) -> Result<u64, Refusal> {
    match q {
        Asked::Weights(t, i) => weights_of(t, i, out).map(|()| 12),
        Asked::NameWeights(q) => weights_of_name(q, out).map(|()| 12),
        Asked::Ring(q) => ring(q, out),
        Asked::Holders(degree, d) => list(degree, d, out),
    }
}

// How the places of the list are shown.
fn entry_of(q: Asked) -> Entry {
    match q {
        Asked::Weights(_, _) | Asked::NameWeights(_) => Entry::Decimal,
        Asked::Ring(_) | Asked::Holders(_, _) => Entry::Word,
    }
}

fn put_answer<const N: usize>(
    e: Entry,
    answer: Result<u64, Refusal>,
    list: &[u64],
    out: &mut Text<N>,
)
    requires { (length list.now ≤ 16) × (length out.old + 1000 ≤ N) }
    ensures { length out.new ≤ length out.old + 1000 }
{
    match (answer, e) {
        (Err(f), _) => answers::refused(f, out),
        (Ok(_), Entry::Decimal) => put_weights(list, out),
        (Ok(count), Entry::Word) => put_codes(count, list, out),
    }
}

fn in_list<const N: usize>(q: Asked, list: &mut [u64], shown: bool, out: &mut Text<N>)
    requires { (length list.old ≤ 16) × (length out.old + 15000 ≤ N) }
    ensures { length out.new ≤ length out.old + 15000 }
{
    places::number(list);
    let answer = fill(q, list);
    put_answer(entry_of(q), answer, list, out);
    if shown {
        places::put_places(entry_of(q), list, out);
    }
}

// With the places that the rest of the line asks for.
fn with_places<const N: usize>(
    q: Asked,
    words: Words<'_>,
    usual: usize,
    out: &mut Text<N>,
) -> Option<()>
    requires { (usual ≤ 16) × (length out.old + 15000 ≤ N) }
    ensures { length out.new ≤ length out.old + 15000 }
{
    let p = arguments::last_places(words, usual, 16)?;
    let mut list = [0u64; 16];
    in_list(q, &mut list[..p.count], p.shown, out);
    Some(())
}

// None where the arguments cannot be read.
pub fn answer<const N: usize>(call: Call, mut words: Words<'_>, out: &mut Text<N>) -> Option<()>
    requires { length out.old + 15000 ≤ N }
    ensures { length out.new ≤ length out.old + 15000 }
{
    match call {
        Call::Weights => {
            let w = arguments::code(&mut words)?;
            let corner = arguments::number(&mut words)?;
            with_places(Asked::Weights(TriangleCode(w), corner), words, 12, out)
        }
        Call::NameWeights => {
            let w = arguments::name(&mut words)?;
            with_places(Asked::NameWeights(CornerName(w)), words, 12, out)
        }
        Call::Ring => {
            let w = arguments::name(&mut words)?;
            with_places(Asked::Ring(CornerName(w)), words, 6, out)
        }
        Call::List => {
            let degree = arguments::number(&mut words)?;
            let d = arguments::towards(&mut words)?;
            with_places(Asked::Holders(degree, d), words, 6, out)
        }
        _ => None,
    }
}
