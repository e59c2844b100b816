// The sweep of document 02, 2026-04, for a C host: plain numbers and lent bytes in, a refusal number out. Its answer
// goes to the bytes, eight for each number, most significant first. The crate host, above it, exports it.
#![tactic(auto)]

ghost use Rattle.std.specs.Prelude.{◌≡◌, [], ◌∷◌, ◌+◌, ◌*◌, ◌/◌, ◌%◌, ◌≤◌, ◌<◌, length};
ghost use Rattle.frame.specs.Answers.{over};
ghost use Rattle.frame.specs.Lists.{first_place};
ghost use Rattle.frame.specs.Refusals.{told_number};
ghost use Rattle.octets.specs.Bytes.{bytes};
ghost use Rattle.words.specs.Family.{code_told};
ghost use Rattle.directions.specs.Answers.{FileAnswer};
ghost use Rattle.sweeps.specs.Means.Counted.{is_zero};
ghost use Rattle.host_sweeps.specs.Answers.{directions_in, SweepBytes};
ghost use Rattle.host_sweeps.specs.Means.CountedBytes.{direction_in, CountedBytes, first_bytes, ToldBytes};

use filing::Direction;
use frame::{Refusal, number_of};
use octets::{get_signed4, put8};
use words::TriangleCode;

// Files direction i, twelve bytes each.
fn file_byte_at(degree: u64, dirs: &[u8], i: usize) -> Result<TriangleCode, Refusal>
    requires { 12 * i + 11 < length dirs.now }
    ensures { FileAnswer degree (direction_in dirs.now i) (code_told result) }
{
    let k = 12 * i;
    let x = get_signed4(&dirs[k..]);
    let y = get_signed4(&dirs[k + 4..]);
    let z = get_signed4(&dirs[k + 8..]);
    directions::file(degree, Direction { x, y, z })
}

// Files one direction after the other, and answers how many are refused. Each code goes to the part of the bytes that
// starts at its place. (A loop with one caller: it is compiled into the call, and any number takes the same stack.)
fn file_each_byte(degree: u64, dirs: &[u8], codes: &mut [u8]) -> u64
    requires { (length dirs.now % 12 ≡ 0) × (8 * (length dirs.now / 12) ≤ length codes.old) }
    ensures { CountedBytes degree (directions_in dirs.now) codes.old result codes.new }
{
    let mut refused = 0;
    for i in 0..dirs.len() / 12 {
        let code = match file_byte_at(degree, dirs, i) {
            Ok(code) => code.0,
            Err(_) => {
                refused += 1;
                0
            }
        };
        put8(code, &mut codes[8 * i..]);
    }
    refused
}

// The first of n codes that is 0, or n: a code that is not 0 has a first byte that is not.
fn first_zero_code(codes: &[u8], n: usize) -> usize
    requires { 8 * n ≤ length codes.now }
    ensures { result ≡ first_place is_zero (first_bytes n codes.now) }
{
    for place in 0..n {
        if codes[8 * place] == 0 {
            return place;
        }
    }
    n
}

// Three numbers, eight bytes each, over the front of out.
fn put_three(a: u64, b: u64, c: u64, out: &mut [u8])
    requires { 24 ≤ length out.old }
    ensures { out.new ≡ over (bytes 8 (a ∷ b ∷ c ∷ [])) out.old }
{
    put8(a, out);
    put8(b, &mut out[8..]);
    put8(c, &mut out[16..]);
}

// The answer, where so many are refused: the first is the first with the code 0, and is asked once more for its
// refusal. (Zeros that are written as such take three instructions, any other three numbers sixty.)
fn tell_in(degree: u64, dirs: &[u8], codes: &[u8], refused: u64, out: &mut [u8])
    requires { (24 ≤ length out.old) × (8 * (length dirs.now / 12) ≤ length codes.now)
        × ((refused ≡ 0 → ⊥)
        → first_place is_zero (first_bytes (length dirs.now / 12) codes.now) < length dirs.now / 12) }
    ensures { ToldBytes degree (directions_in dirs.now)
        (first_place is_zero (first_bytes (length dirs.now / 12) codes.now)) refused
        out.old out.new }
{
    if refused == 0 {
        put_three(0, 0, 0, out);
    } else {
        let place = first_zero_code(codes, dirs.len() / 12);
        let first = file_byte_at(degree, dirs, place).and(Ok(()));
        put_three(refused, place as u64, number_of(first), out);
    }
}

// The codes, eight bytes each, and in twenty-four bytes how many directions are refused, the first one's place and its
// refusal.
fn sweep(degree: u64, dirs: &[u8], codes: &mut [u8], out: &mut [u8]) -> Result<(), Refusal>
    ensures { SweepBytes degree dirs.now codes.old out.old (told_number result)
        (codes.new, out.new) }
{
    if 24 < degree {
        return Err(Refusal::Degree);
    }
    if dirs.len() % 12 != 0 {
        return Err(Refusal::ShortList);
    }
    if codes.len() < 8 * (dirs.len() / 12) {
        return Err(Refusal::ShortList);
    }
    if out.len() < 24 {
        return Err(Refusal::ShortList);
    }
    let refused = file_each_byte(degree, dirs, codes);
    tell_in(degree, dirs, codes, refused, out);
    Ok(())
}

// A sweep, of twelve bytes a direction.
pub fn grid_sweep(degree: u64, dirs: &[u8], codes: &mut [u8], out: &mut [u8]) -> u64
    ensures { SweepBytes degree dirs.now codes.old out.old result
        (codes.new, out.new) }
{
    number_of(sweep(degree, dirs, codes, out))
}
