// The bytes of a table of soundings in a file: its degree, the readings and the owners in the order of their places,
// eight bytes for each, most significant first (docs/CONSOLE.md, `save` and `open`). The degree of a file is
// `octets::get8` of its bytes. What the numbers of a table are is said in the crate tables.
#![tactic(auto)]

ghost use Rattle.std.specs.Prelude.{◌≡◌, ℕ, map, ◌+◌, ◌*◌, ◌≤◌, length};
ghost use Rattle.frame.specs.Answers.{over};
ghost use Rattle.octets.specs.Bytes.{bytes, read_each};
ghost use Rattle.tables.specs.Owners.{shared};
ghost use Rattle.tables.specs.Answers.{refused, table_told};
ghost use Rattle.table_files.specs.Files.{word_of, file_of, reading_of, owner_of, readings_in, owners_in};
ghost use Rattle.table_files.specs.Refusals.{refuse_table};

use octets::{get8, put8};
use tables::TableRefusal;

// The largest reading, in millimetres.
const MOST: u64 = 100000;

// All bits set: -1 in a file.
const ALL: u64 = 0xFFFF_FFFF_FFFF_FFFF;

// ---- one number

// What a list of a table holds, as a number of its file.
trait Filed: Copy {
    ghost to_word: { Self → ℕ };

    ghost from_word: { ℕ → Self };

    fn to_word(self) -> u64
        ensures { result ≡ to_word self };

    fn from_word(w: u64) -> Self
        ensures { result ≡ from_word w };
}

// One of the readings.
impl Filed for i32 {
    ghost to_word = { word_of };

    ghost from_word = { reading_of };

    fn to_word(self) -> u64 {
        if self < 0 {
            return ALL - (-1 - self) as u64;
        }
        self as u64
    }

    fn from_word(w: u64) -> i32 {
        match w {
            0..=MOST => w as i32,
            ALL => -1,
            _ => -2,
        }
    }
}

// One of the owners.
impl Filed for u8 {
    ghost to_word = { λ owner. owner };

    ghost from_word = { owner_of };

    fn to_word(self) -> u64 {
        self as u64
    }

    fn from_word(w: u64) -> u8 {
        match w {
            0..=2 => w as u8,
            _ => 3,
        }
    }
}

// ---- written

// The numbers of a list over the front of out.
fn put_list<T: Filed>(list: &[T], out: &mut [u8])
    requires { 8 * length list.now ≤ length out.old }
    ensures { out.new ≡ over (bytes 8 (map T.to_word list.now)) out.old }
{
    for (place, number) in list.iter().enumerate() {
        put8(number.to_word(), &mut out[8 * place..]);
    }
}

// The file of a table over the front of out.
pub fn put_table(degree: u64, list: &[i32], owners: &[u8], out: &mut [u8])
    requires { 8 * (1 + length list.now + length owners.now) ≤ length out.old }
    ensures { out.new
        ≡ over (file_of degree (shared list.now owners.now)) out.old }
{
    let after = 8 * (1 + list.len());
    put8(degree, out);
    put_list(list, &mut out[8..]);
    put_list(owners, &mut out[after..]);
}

// ---- read

// A number for every place of the list.
fn read_list<T: Filed>(bytes: &[u8], list: &mut [T])
    requires { 8 * length list.old ≤ length bytes.now }
    ensures { list.new ≡ read_each T.from_word 8 (length list.old) bytes.now }
{
    for (place, number) in list.iter_mut().enumerate() {
        *number = T::from_word(get8(&bytes[8 * place..]));
    }
}

// The readings and the owners of a file.
pub fn read_table(bytes: &[u8], list: &mut [i32], owners: &mut [u8])
    requires { 8 * (1 + length list.old + length owners.old) ≤ length bytes.now }
    ensures { (list.new ≡ readings_in (length list.old) bytes.now)
        × (owners.new
        ≡ owners_in (length list.old) (length owners.old) bytes.now) }
{
    let start = 8 * (1 + list.len());
    read_list(&bytes[8..], list);
    read_list(&bytes[start..], owners);
}

// ---- refused

// 1, 20, 22, 23 and 25: of a table that is to be written, or that was read.
pub fn refuse_table(degree: u64, list: &[i32], owners: &[u8]) -> Result<(), TableRefusal>
    ensures { table_told result ≡ refused list.now
        (refuse_table degree (shared list.now owners.now)) }
{
    refusing::refuse_degree(degree)?;
    refusing::refuse_list(degree, list)?;
    refusing::refuse_owners(degree, owners)?;
    Ok(())
}
