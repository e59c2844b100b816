// The call that files a sweep (document 02, 2026-04): a lent list of directions, three numbers each, into a lent list
// of codes. Later parts are handed on as parts that start in the middle of both lists. What it answers is defined in
// the crate sweeps, below.
#![tactic(auto)]

ghost use Rattle.std.specs.Prelude.{◌≡◌, ◌+◌, ◌*◌, ◌%◌, ◌≤◌, ◌<◌, length};
ghost use Rattle.frame.specs.Lists.{first_place};
ghost use Rattle.words.specs.Family.{code_told};
ghost use Rattle.directions.specs.Answers.{FileAnswer};
ghost use Rattle.sweeps.specs.Answers.{SweepResult, sweep_told, unfiled_told};
ghost use Rattle.sweeps.specs.Promises.{direction_at};
ghost use Rattle.sweeps.specs.Means.Counted.{CountedInto, is_zero, Refuses, Tells};

use filing::Direction;
use frame::Refusal;
use sweeps::{Unfiled, first_zero};
use words::TriangleCode;

// Files direction i.
fn file_at(degree: u64, dirs: &[i32], i: usize) -> Result<TriangleCode, Refusal>
    requires { 3 * i + 2 < length dirs.now }
    ensures { FileAnswer degree (direction_at dirs.now i) (code_told result) }
{
    let x = dirs[3 * i];
    let y = dirs[3 * i + 1];
    let z = dirs[3 * i + 2];
    directions::file(degree, Direction { x, y, z })
}

// Files one direction after the other, and answers how many are refused.
fn file_each(degree: u64, dirs: &[i32], codes: &mut [u64]) -> u64
    requires { (length dirs.now % 3 ≡ 0) × (length dirs.now ≤ 3 * length codes.old) }
    ensures { CountedInto degree dirs.now codes.old result codes.new }
{
    let mut refused = 0;
    for i in 0..dirs.len() / 3 {
        match file_at(degree, dirs, i) {
            Ok(code) => codes[i] = code.0,
            Err(_) => {
                codes[i] = 0;
                refused += 1;
            }
        }
    }
    refused
}

// The same by halves, down to parts of 64 directions or fewer: however many there are, no more than 58 calls are open
// at a time.
fn file_halves(degree: u64, dirs: &[i32], codes: &mut [u64]) -> u64
    requires { (length dirs.now % 3 ≡ 0) × (length dirs.now ≤ 3 * length codes.old) }
    ensures { CountedInto degree dirs.now codes.old result codes.new }
{
    let n = dirs.len() / 3;
    if n <= 64 {
        return file_each(degree, dirs, codes);
    }
    let h = n / 2;
    let k = 3 * h;
    let a = file_halves(degree, &dirs[..k], codes);
    let b = file_halves(degree, &dirs[k..], &mut codes[h..]);
    a + b
}

// The answer, where so many are refused: the first is the first with the code 0, and is asked once more for its
// refusal.
fn tell(degree: u64, dirs: &[i32], codes: &[u64], refused: u64) -> Option<Unfiled>
    requires { (refused ≡ 0 → ⊥) → (3 * first_place is_zero codes.now + 2 < length dirs.now)
        × Refuses degree (direction_at dirs.now (first_place is_zero codes.now)) }
    ensures { Tells degree dirs.now (first_place is_zero codes.now) refused (unfiled_told result) }
{
    if refused == 0 {
        return None;
    }
    let place = first_zero(codes);
    let refusal = file_at(degree, dirs, place).err()?;
    Some(Unfiled {
        count: refused,
        place: place as u64,
        refusal,
    })
}

// Filing many directions, each as the single call files it, and what is not filed. A refused one writes 0 in its own
// place, and the sweep goes on. (A short sweep takes the short way, which costs no more than its single calls.)
pub fn sweep(degree: u64, dirs: &[i32], codes: &mut [u64]) -> Result<Option<Unfiled>, Refusal>
    ensures { SweepResult degree dirs.now codes.old (sweep_told result) codes.new }
{
    if 24 < degree {
        return Err(Refusal::Degree);
    }
    if dirs.len() % 3 != 0 {
        return Err(Refusal::ShortList);
    }
    let n = dirs.len() / 3;
    if codes.len() < n {
        return Err(Refusal::ShortList);
    }
    if n <= 64 {
        let refused = file_each(degree, dirs, codes);
        return Ok(tell(degree, dirs, codes, refused));
    }
    let refused = file_halves(degree, dirs, codes);
    Ok(tell(degree, dirs, codes, refused))
}
