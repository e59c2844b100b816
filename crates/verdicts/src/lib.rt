// The line that the program of document 02, 2026-09, writes for a file of cells: the file taken in part by part, in a
// buffer that does not grow with it, and the line.
#![tactic(auto)]

ghost use Rattle.std.specs.Prelude.{◌≡◌, List, ℕ, [], ◌∷◌, ◌++◌, ◌+◌, ◌*◌, ◌%◌, ◌≤◌, length};
ghost use Rattle.octets.specs.Bytes.{numbers};
ghost use Rattle.cells.specs.Checking.{verdict_told, checked};
ghost use Rattle.verdicts.specs.Program.{verdict_text, text, line};
ghost use Rattle.verdicts.specs.Files.{Holds, TakesIn, WritesOf};

use cells::Offence;
use lines::Text;
use octets::read_words;

// The length that is kept of a file of more than 4,096 words, which has so many bytes more.
fn past_room(size: usize, more: usize) -> usize
    ensures { result ≡ 32776 + (size + more) % 8 }
{
    32776 + (size % 8 + more % 8) % 8
}

// The bytes of a list over another as long. (Byte by byte, and as a call of its own: the library's copy_from_slice is a
// call of memmove, and compiled into its callers this becomes one of memcpy, which a program in C would have to bring.)
#[inline(never)]
fn copy(from: &[u8], to: &mut [u8])
    requires { length to.old ≡ length from.now }
    ensures { to.new ≡ from.now }
{
    for (i, place) in to.iter_mut().enumerate() {
        *place = from[i];
    }
}

// Takes in the next bytes of a file, of which `head` and `size` hold what came before them: at its beginning anything
// and 0. The size that is held then.
pub fn take_in(next: &[u8], head: &mut [u8], size: usize) -> usize
    requires { 32768 ≤ length head.old }
    ensures { TakesIn next.now head.old size head.new result }
{
    if 32768 < size {
        return past_room(size, next.len());
    }
    if 32768 - size < next.len() {
        return past_room(size, next.len());
    }
    let end = size + next.len();
    copy(next, &mut head[size..end]);
    end
}

// Checks the first words of the bytes.
pub fn check_words(bytes: &[u8], count: usize) -> Result<(), Offence>
    requires { (8 * count ≤ length bytes.now) × (count ≤ 4096) }
    ensures { verdict_told result ≡ checked (numbers 8 count bytes.now) }
{
    let mut words = [0u64; 4096];
    read_words(bytes, count, &mut words);
    cells::check(&words[..count])
}

// A verdict as text.
pub fn put_verdict<const N: usize>(v: Result<(), Offence>, out: &mut Text<N>)
    requires { length out.old + 54 ≤ N }
    ensures text { out.new ≡ out.old ++ verdict_text (verdict_told v) }
    ensures within { length out.new ≤ length out.old + 54 }
{
    match v {
        Ok(()) => out.push_bytes(b"accepted"),
        Err(o) => {
            out.push_bytes(b"place ");
            out.push_decimal(o.place);
            out.push_bytes(b" reason ");
            out.push_decimal(u64::from(o.reason));
        }
    }
}

// The line without its end.
fn put_text<const N: usize>(head: &[u8], size: usize, out: &mut Text<N>)
    requires { (32768 ≤ length head.now) × (length out.old + 54 ≤ N) }
    ensures text { (file : List ℕ) → Holds file head.now size → out.new ≡ out.old ++ text file }
    ensures within { length out.new ≤ length out.old + 54 }
{
    if size % 8 != 0 {
        out.push_bytes(b"bad length");
        return;
    }
    if 4096 < size / 8 {
        out.push_bytes(b"too long");
        return;
    }
    put_verdict(check_words(head, size / 8), out);
}

// The line of the file that is held.
pub fn write_line<const N: usize>(head: &[u8], size: usize, out: &mut Text<N>)
    requires { (32768 ≤ length head.now) × (length out.old + 55 ≤ N) }
    ensures text { (file : List ℕ) → Holds file head.now size → out.new ≡ out.old ++ line file }
    ensures within { length out.new ≤ length out.old + 55 }
{
    put_text(head, size, out);
    out.push(b'\n');
}

// The same over the front of a lent buffer, and its length. It stays as contracts/specs/Verdicts.antt has it, and so do
// `head` and `size` beside one another: C lends the bytes.
pub fn put_line(head: &[u8], size: usize, out: &mut [u8]) -> usize
    requires { (32768 ≤ length head.now) × (55 ≤ length out.old) }
    ensures { WritesOf line 55 head.now size result out.old out.new }
{
    let mut written: Text<55> = Text::new();
    write_line(head, size, &mut written);
    let bytes = written.as_bytes();
    let n = bytes.len();
    copy(bytes, &mut out[..n]);
    n
}
