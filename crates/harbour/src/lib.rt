// Document 02, 2026-11, the harbour profile: triangle codes of degree 11 or less in words of 32 bits. Reader and writer
// between the forms, and crossing and filing on the small form.
#![tactic(auto)]

ghost use Rattle.std.specs.Prelude.{◌≡◌};
ghost use Rattle.frame.specs.Refusals.{first_of, told_number};
ghost use Rattle.words.specs.Forms.{degree_in};
ghost use Rattle.words.specs.Family.{code_of, code_told};
ghost use Rattle.harbour.specs.Small.{small, small_code, large_of, small_of};
ghost use Rattle.harbour.specs.Refusals.{harbour_order, depth_rows, check_small, refuse_write};
ghost use Rattle.harbour.specs.Answers.{small_told, small_step_told};
ghost use Rattle.harbour.specs.Answers.{ReadAnswer, WriteAnswer, SmallCrossAnswer, SmallFileAnswer};

use filing::Direction;
use frame::Refusal;
use words::TriangleCode;

// A small code, or any 32-bit word handed in as one.
#[derive(Clone, Copy, Debug, PartialEq, Eq, PartialOrd, Ord, Hash)]
pub struct SmallCode(pub u32);

// A neighbour's small code, the number of the shared edge there, and the numbers there of the edge's two corners, as
// crossing answers them.
#[derive(Clone, Copy, Debug, PartialEq, Eq, Hash)]
pub struct SmallStep {
    pub code: SmallCode,
    pub edge: u64,
    pub first: u64,
    pub second: u64,
}

// ---- the words

// Refuses a degree, as field or argument, by 1 or 30.
fn refuse_depth(n: u64) -> Result<(), Refusal>
    ensures { told_number result ≡ first_of harbour_order (depth_rows n) }
{
    if 24 < n {
        return Err(Refusal::Degree);
    }
    if 11 < n {
        return Err(Refusal::SmallDegree);
    }
    Ok(())
}

fn degree_in(w: u64) -> u64
    ensures { result ≡ degree_in small w }
{
    w / 8388608 % 16
}

// Refuses a word that is no small code. Of a code all is 0 below its digits.
fn check_word(w: u64) -> Result<(), Refusal>
    ensures { told_number result ≡ check_small (small_code w) }
{
    let n = degree_in(w);
    refuse_depth(n)?;
    let a = w / 536870912;
    if a == 0 {
        return Err(Refusal::Side);
    }
    if 5 < a {
        return Err(Refusal::Side);
    }
    if w % words::power(23 - 2 * n) == 0 {
        return Ok(());
    }
    if words::bits_of(w, 1, 22 - 2 * n) == 0 {
        return Err(Refusal::LastBit);
    }
    Err(Refusal::BeyondDegree)
}

// The large word of a small code: the digits begin 31 bits higher.
fn large_word(w: u64) -> u64
    requires { check_small (small_code w) ≡ 0 }
    ensures { result ≡ (large_of (small_code w)).0 }
{
    w / 134217728 * 576460752303423488 + degree_in(w) * 18014398509481984 + w % 8388608 * 2147483648
}

// The small word of a code of degree 11 or less.
fn small_word(w: u64) -> u32
    requires { refuse_write (code_of w) ≡ 0 }
    ensures { result ≡ (small_of (code_of w)).0 }
{
    let side = words::side_of(w);
    let n = words::degree_of(w);
    (side * 134217728 + n * 8388608 + w % 18014398509481984 / 2147483648) as u32
}

// Refuses a word that has no small form.
fn refuse_write(t: TriangleCode) -> Result<(), Refusal>
    ensures { told_number result ≡ refuse_write t }
{
    refuse_depth(words::degree_of(t.0))?;
    t.check()
}

// ---- the calls

impl SmallCode {
    // Checking: refusal 30, 2, 3 or 31 of a word that is no small code.
    pub fn check(self) -> Result<(), Refusal>
        ensures { told_number result ≡ check_small self }
    {
        check_word(self.0 as u64)
    }

    // Reading: the code, in its large form.
    pub fn read(self) -> Result<TriangleCode, Refusal>
        ensures { ReadAnswer self (code_told result) }
    {
        let w = self.0 as u64;
        check_word(w)?;
        Ok(TriangleCode(large_word(w)))
    }

    // Crossing an edge, by the large call.
    pub fn cross(self, edge: u64) -> Result<SmallStep, Refusal>
        ensures { SmallCrossAnswer self edge (small_step_told result) }
    {
        let w = self.0 as u64;
        check_word(w)?;
        let step = corners::cross(TriangleCode(large_word(w)), edge)?;
        Ok(SmallStep {
            code: SmallCode(small_word(step.code.0)),
            edge: step.edge,
            first: step.first,
            second: step.second,
        })
    }
}

// Writing: the small form of a code of degree 11 or less.
pub fn write(t: TriangleCode) -> Result<SmallCode, Refusal>
    ensures { WriteAnswer t (small_told result) }
{
    refuse_write(t)?;
    Ok(SmallCode(small_word(t.0)))
}

// Filing a direction at a degree of 11 or less, by the large call.
pub fn file(degree: u64, d: Direction) -> Result<SmallCode, Refusal>
    ensures { SmallFileAnswer degree d (small_told result) }
{
    refuse_depth(degree)?;
    let filed = directions::file(degree, d)?;
    Ok(SmallCode(small_word(filed.0)))
}
