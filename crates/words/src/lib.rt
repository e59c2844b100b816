// The 64-bit words: their fields, the two kinds, checking, parent and child.
#![tactic(auto)]

ghost use Rattle.std.specs.Prelude.{◌≡◌, ◌+◌, ◌-◌, ◌*◌, ◌^◌, ◌<◌, ◌≤◌, take};
ghost use Rattle.frame.specs.Refusals.{refusal, told_number};
ghost use Rattle.words.specs.Words.{bits, a_of, degree_of, digits, beyond, side_of, path, word_of};
ghost use Rattle.words.specs.Refusals.{word_rows, check_code, check_name_fields};
ghost use Rattle.words.specs.Family.{code_told, ParentAnswer, ChildAnswer};

use frame::Refusal;

// A triangle code, or any word handed in as one.
#[derive(Clone, Copy, Debug, PartialEq, Eq, PartialOrd, Ord, Hash)]
pub struct TriangleCode(pub u64);

// A corner name, or any word handed in as one.
#[derive(Clone, Copy, Debug, PartialEq, Eq, PartialOrd, Ord, Hash)]
pub struct CornerName(pub u64);

// ---- the fields of a word of either kind

fn a_of(w: u64) -> u64
    ensures { result ≡ a_of w }
{
    w / 2305843009213693952
}

// a, p and q as one number.
pub fn side_of(w: u64) -> u64
    ensures { result ≡ side_of w }
{
    w / 576460752303423488
}

pub fn degree_of(w: u64) -> u64
    ensures { result ≡ degree_of w }
{
    w / 18014398509481984 % 32
}

// 2 to the k.
pub fn power(k: u64) -> u64
    requires { k < 64 }
    ensures { result ≡ 2 ^ k }
{
    1u64 << k
}

// The b bits above the lowest k.
pub fn bits_of(w: u64, k: u64, b: u64) -> u64
    requires { (k < 64) × (b < 64) }
    ensures { result ≡ bits w k b }
{
    w / power(k) % power(b)
}

// The first n digits as one number, the last of them lowest.
pub fn path_of(w: u64, n: u64) -> u64
    requires { n ≤ 24 }
    ensures { result ≡ path (digits w n) }
{
    bits_of(w, 54 - 2 * n, 2 * n)
}

// The word of a side, a degree and its digits as one number.
pub fn word_of(s: u64, n: u64, v: u64) -> u64
    requires { (s < 32) × (n ≤ 24) × (v < 2 ^ (2 * n)) }
    ensures { result ≡ word_of s n v }
{
    s * 576460752303423488 + n * 18014398509481984 + v * power(54 - 2 * n)
}

// The weight of the last of a word's digits: 2 to its place; 2^54 where it has none.
pub fn unit_of(w: u64) -> u64
    requires { degree_of w ≤ 24 }
    ensures { result ≡ 2 ^ (54 - 2 * degree_of w) }
{
    power(54 - 2 * degree_of(w))
}

// The digits beyond a word's degree as one number.
fn beyond_of(w: u64) -> u64
    requires { degree_of w ≤ 24 }
    ensures { result ≡ beyond w (degree_of w) }
{
    bits_of(w, 6, 48 - 2 * degree_of(w))
}

// ---- checking

// Refusals 1 and 2, by what stands above the digits.
fn check_above(w: u64) -> Result<(), Refusal>
    ensures { told_number result ≡ refusal (take 2 (word_rows w)) }
{
    let n = degree_of(w);
    let a = a_of(w);
    if 24 < n {
        return Err(Refusal::Degree);
    }
    if a == 0 {
        return Err(Refusal::Side);
    }
    if 5 < a {
        return Err(Refusal::Side);
    }
    Ok(())
}

// Refusals 1 to 3, which both kinds of word share.
fn check_word(w: u64) -> Result<(), Refusal>
    ensures { told_number result ≡ refusal (word_rows w) }
{
    check_above(w)?;
    if beyond_of(w) != 0 {
        return Err(Refusal::BeyondDegree);
    }
    Ok(())
}

// Refuses by 1 to 4 a word whose fields are no corner name's. Whether it is canonical is not looked at: no call of
// document 01, but the first part of checking a name.
pub fn check_name_fields(r: CornerName) -> Result<(), Refusal>
    ensures { told_number result ≡ check_name_fields r }
{
    let w = r.0;
    check_word(w)?;
    if w / 4 % 16 != 0 {
        return Err(Refusal::LowBits);
    }
    if w % 4 == 0 {
        return Err(Refusal::LowBits);
    }
    Ok(())
}

impl TriangleCode {
    // Refuses by 1 to 4 a word that is no triangle code. Of a code all is 0 below its digits.
    pub fn check(self) -> Result<(), Refusal>
        ensures { told_number result ≡ check_code self }
    {
        let w = self.0;
        check_above(w)?;
        if w % unit_of(w) == 0 {
            return Ok(());
        }
        if beyond_of(w) != 0 {
            return Err(Refusal::BeyondDegree);
        }
        Err(Refusal::LowBits)
    }

    // The triangle of which this is a child.
    pub fn parent(self) -> Result<TriangleCode, Refusal>
        ensures { ParentAnswer self (code_told result) }
    {
        self.check()?;
        let w = self.0;
        let n = degree_of(w);
        if n == 0 {
            return Err(Refusal::NoSuchKin);
        }
        Ok(TriangleCode(word_of(side_of(w), n - 1, path_of(w, n - 1))))
    }

    // The child with this digit.
    pub fn child(self, digit: u64) -> Result<TriangleCode, Refusal>
        ensures { ChildAnswer self digit (code_told result) }
    {
        self.check()?;
        let w = self.0;
        if 3 < digit {
            return Err(Refusal::Argument);
        }
        let n = degree_of(w);
        if n == 24 {
            return Err(Refusal::NoSuchKin);
        }
        Ok(TriangleCode(word_of(side_of(w), n + 1, 4 * path_of(w, n) + digit)))
    }
}
