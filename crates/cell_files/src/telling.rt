// The second line: what a list offends by, in words.
ghost use Rattle.std.specs.Prelude.{◌+◌, ◌*◌, ◌≤◌, length};

use crate::Held;
use frame::Refusal;
use lines::Text;
use octets::get8;
use words::TriangleCode;

// Word i of the bytes; 0 past their end.
fn word_at(bytes: &[u8], i: u64) -> u64
    requires { 32768 ≤ length bytes.now }
{
    if 4095 < i {
        return 0;
    }
    get8(&bytes[8 * i as usize..])
}

// That a word is invalid, and why.
pub fn put_invalid<const N: usize>(refusal: Refusal, out: &mut Text<N>)
    requires { length out.old + 202 ≤ N }
    ensures { length out.new ≤ length out.old + 202 }
{
    texts::put_offence(1, out);
    out.push_bytes(b": ");
    texts::put_reason(u64::from(refusal), out);
}

// A word that is no code, and why.
fn put_no_code<const N: usize>(w: u64, refusal: Refusal, out: &mut Text<N>)
    requires { length out.old + 250 ≤ N }
    ensures { length out.new ≤ length out.old + 250 }
{
    out.push_word(w);
    out.push_bytes(b" is ");
    put_invalid(refusal, out);
}

// A code, its reason, and the word before it.
fn put_misplaced<const N: usize>(w: u64, reason: u64, before: u64, out: &mut Text<N>)
    requires { length out.old + 250 ≤ N }
    ensures { length out.new ≤ length out.old + 250 }
{
    texts::put_code(w, out);
    out.push_bytes(b" is ");
    texts::put_offence(reason, out);
    out.push_bytes(b", ");
    texts::put_code(before, out);
}

// The word at a place, and its reason.
fn put_at_place<const N: usize>(bytes: &[u8], place: u64, reason: u64, out: &mut Text<N>)
    requires { (32768 ≤ length bytes.now) × (length out.old + 250 ≤ N) }
    ensures { length out.new ≤ length out.old + 250 }
{
    let w = word_at(bytes, place);
    if let Err(f) = TriangleCode(w).check() {
        put_no_code(w, f, out);
    } else if 0 < place {
        // Only the word at the first place has none before it, and that offends by 1 alone.
        put_misplaced(w, reason, word_at(bytes, place - 1), out);
    }
}

// The line but for its end; nothing where the list is accepted.
fn put_told<const N: usize>(held: &Held, out: &mut Text<N>)
    requires { length out.old + 300 ≤ N }
    ensures { length out.new ≤ length out.old + 300 }
{
    let count = held.size / 8;
    if held.size % 8 != 0 {
        out.push_bytes(b"  its length is not a multiple of 8");
        return;
    }
    if 4096 < count {
        out.push_bytes(b"  it has more than 4096 words");
        return;
    }
    if let Err(o) = verdicts::check_words(&held.head, count) {
        out.push_bytes(b"  ");
        put_at_place(&held.head, o.place, u64::from(o.reason), out);
    }
}

// The second line of what is held, after the first.
pub fn put_more<const N: usize>(held: &Held, out: &mut Text<N>)
    requires { length out.old + 400 ≤ N }
    ensures { length out.new ≤ length out.old + 400 }
{
    let before = out.len();
    put_told(held, out);
    if out.len() != before {
        out.push(b'\n');
    }
}
