// The call that mends a cell list (document 02, 2026-10), into three lent lists.
ghost use Rattle.std.specs.Prelude.{◌+◌, ◌≤◌, length};

use frame::Refusal;
use lines::{Text, Words};
use mending::Written;
use replies::places::Entry;
use replies::{answers, arguments, places};

// How many codes the mended list has, and how many changes were made.
fn put_answer<const N: usize>(answer: Result<Written, Refusal>, out: &mut Text<N>)
    requires { length out.old + 200 ≤ N }
    ensures { length out.new ≤ length out.old + 200 }
{
    match answer {
        Ok(written) => {
            out.push_bytes(b"words ");
            out.push_decimal(written.count);
            out.push_bytes(b", changes ");
            out.push_decimal(written.changes);
        }
        Err(f) => answers::refused(f, out),
    }
}

// The places of the lists are shown also where the call is refused.
fn in_lists<const N: usize>(
    list: &[u64],
    mended: &mut [u64],
    words: &mut [u64],
    reasons: &mut [u64],
    out: &mut Text<N>,
)
    requires { (length mended.old ≤ 64) × (length words.old ≤ 64) × (length reasons.old ≤ 64)
        × (length out.old + 15000 ≤ N) }
    ensures { length out.new ≤ length out.old + 15000 }
{
    places::number(mended);
    places::number(words);
    places::number(reasons);
    put_answer(mender::mend(list, mended, words, reasons), out);
    places::put_places(Entry::Word, mended, out);
    places::put_places(Entry::Word, words, out);
    places::put_places(Entry::Decimal, reasons, out);
}

// None where the arguments cannot be read. A line has no room for more than 500 codes.
pub fn answer<const N: usize>(mut line: Words<'_>, out: &mut Text<N>) -> Option<()>
    requires { length out.old + 15000 ≤ N }
    ensures { length out.new ≤ length out.old + 15000 }
{
    let for_mended = arguments::room(&mut line, 64)?;
    let for_words = arguments::room(&mut line, 64)?;
    let for_reasons = arguments::room(&mut line, 64)?;
    let mut list = [0u64; 500];
    let codes = arguments::all(line, |w| lines::read_code_or_word(w), &mut list)?;
    let mut mended = [0u64; 64];
    let mut words = [0u64; 64];
    let mut reasons = [0u64; 64];
    in_lists(
        codes,
        &mut mended[..for_mended],
        &mut words[..for_words],
        &mut reasons[..for_reasons],
        out,
    );
    Some(())
}
