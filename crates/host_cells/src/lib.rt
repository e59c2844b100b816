// The two calls on a cell list of document 02, 2026-09 and 2026-10, for a C host: lent bytes in, a refusal number out.
// A list has eight bytes a word, most significant first, and so has what is answered. The crate host, above it, exports
// them.
#![tactic(auto)]

ghost use Rattle.std.specs.Prelude.{◌≡◌, [], ◌∷◌, ◌/◌, ◌%◌, ◌≤◌, length};
ghost use Rattle.frame.specs.Answers.{over};
ghost use Rattle.octets.specs.Bytes.{bytes, words_in};
ghost use Rattle.frame.specs.Refusals.{told_number};
ghost use Rattle.cells.specs.Checking.{verdict_told, checked};
ghost use Rattle.mending.specs.Answers.{lists};
ghost use Rattle.host_cells.specs.Answers.{CheckBytes, mend_out, MendBytes};

use cells::{Offence, Reach, look_at};
use frame::{Refusal, number_of};
use octets::{get8, put8, read_words, write_words};

// Two numbers, eight bytes each, over the front of out.
fn put_two(a: u64, b: u64, out: &mut [u8])
    requires { 16 ≤ length out.old }
    ensures { out.new ≡ over (bytes 8 (a ∷ b ∷ [])) out.old }
{
    put8(a, out);
    put8(b, &mut out[8..]);
}

// Checks the words of the bytes in one pass, as cells::check does a list of words: any number of them takes the same
// room.
fn check_bytes(list: &[u8]) -> Result<(), Offence>
    ensures { verdict_told result ≡ checked (words_in list.now) }
{
    let mut last = Reach { rank: 0, end: 0 };
    for i in 0..list.len() / 8 {
        match look_at(get8(&list[8 * i..]), last) {
            Ok(own) => last = own,
            Err(reason) => {
                return Err(Offence {
                    reason,
                    place: i as u64,
                });
            }
        }
    }
    Ok(())
}

// The reason and the place of a list's first offence, in sixteen bytes.
fn check(list: &[u8], out: &mut [u8]) -> Result<(), Refusal>
    ensures { CheckBytes list.now out.old (told_number result) out.new }
{
    if list.len() % 8 != 0 {
        return Err(Refusal::ShortList);
    }
    if out.len() < 16 {
        return Err(Refusal::ShortList);
    }
    match check_bytes(list) {
        Ok(()) => put_two(0, 0, out),
        Err(o) => put_two(u64::from(o.reason), o.place, out),
    }
    Ok(())
}

// Checking a list.
pub fn grid_check_cells(list: &[u8], out: &mut [u8]) -> u64
    ensures { CheckBytes list.now out.old result out.new }
{
    number_of(check(list, out))
}

// Mending, where nothing is refused: by lists of words, for which there is room here.
fn mend_bytes(list: &[u8], mended: &mut [u8], words: &mut [u8], reasons: &mut [u8], out: &mut [u8])
    requires { (length list.now / 8 ≤ 4096) × (length list.now % 8 ≡ 0) × (length list.now ≤ length mended.old)
        × (length list.now ≤ length words.old) × (length list.now ≤ length reasons.old)
        × (16 ≤ length out.old) }
    ensures { (lists mended.new words.new reasons.new, out.new)
        ≡ mend_out list.now (lists mended.old words.old reasons.old)
        out.old }
{
    let n = list.len() / 8;
    let mut input = [0u64; 4096];
    let mut codes = [0u64; 4096];
    let mut changed = [0u64; 4096];
    let mut whys = [0u64; 4096];
    read_words(list, n, &mut input);
    let a = mender::mend(&input[..n], &mut codes, &mut changed, &mut whys).unwrap();
    write_words(&codes, a.count as usize, mended);
    write_words(&changed, a.changes as usize, words);
    write_words(&whys, a.changes as usize, reasons);
    put_two(a.count, a.changes, out);
}

// A list's codes; for each change its word and its reason, in two lists; and both counts, in sixteen bytes.
fn mend(
    list: &[u8],
    mended: &mut [u8],
    words: &mut [u8],
    reasons: &mut [u8],
    out: &mut [u8],
) -> Result<(), Refusal>
    ensures { MendBytes list.now (lists mended.old words.old reasons.old)
        out.old (told_number result)
        (lists mended.new words.new reasons.new, out.new) }
{
    let n = list.len();
    if 4096 < n / 8 {
        return Err(Refusal::LongList);
    }
    if n % 8 != 0 {
        return Err(Refusal::ShortList);
    }
    if mended.len() < n {
        return Err(Refusal::ShortList);
    }
    if words.len() < n {
        return Err(Refusal::ShortList);
    }
    if reasons.len() < n {
        return Err(Refusal::ShortList);
    }
    if out.len() < 16 {
        return Err(Refusal::ShortList);
    }
    mend_bytes(list, mended, words, reasons, out);
    Ok(())
}

// Mending a list.
pub fn grid_mend_cells(
    list: &[u8],
    mended: &mut [u8],
    words: &mut [u8],
    reasons: &mut [u8],
    out: &mut [u8],
) -> u64
    ensures { MendBytes list.now (lists mended.old words.old reasons.old)
        out.old result
        (lists mended.new words.new reasons.new, out.new) }
{
    number_of(mend(list, mended, words, reasons, out))
}
