// Text in bytes: the words of a line, what a word reads as, and a text as it is written.
#![tactic(auto)]

ghost use Rattle.std.specs.Prelude.{◌≡◌, Option, Some, None, MatchOption, [], ◌*◌, ◌^◌, ◌<◌, ◌≤◌, pos, neg_ℤ, length, drop};
ghost use Rattle.std.specs.Iterator.{at_most};
ghost use Rattle.lines.specs.Splitting as splitting;
ghost use Rattle.lines.specs.Reading as reading;

mod text;

pub use text::Text;

// ---- splitting

// A space, a tab or a carriage return.
fn is_separator(c: u8) -> bool
    ensures { result ≡ splitting.separator c }
{
    matches!(c, b' ' | b'\t' | b'\r')
}

// How many bytes at the front are separators, or are none.
fn run_len(bytes: &[u8], separators: bool) -> usize
    ensures count { result ≡ splitting.run separators bytes.now }
    ensures within { result ≤ length bytes.now }
{
    for (i, c) in bytes.iter().enumerate() {
        if is_separator(*c) != separators {
            return i;
        }
    }
    bytes.len()
}

// The words of a line, and what is left of it.
#[derive(Clone, Drop)]
pub struct Words<'a> {
    rest: &'a [u8],
}

impl<'a> Words<'a> {
    pub fn of(line: &'a [u8]) -> Self
        ensures { result.rest.now ≡ line.now }
    {
        Words { rest: line }
    }

    // Whether no word is left.
    pub fn is_empty(&self) -> bool
        ensures { result ≡ splitting.blank self.now.rest.now }
    {
        run_len(self.rest, true) == self.rest.len()
    }

    // What is left of the line, from its first word on.
    pub fn rest(&self) -> &'a [u8]
        ensures { result.now ≡ splitting.begun self.now.rest.now }
    {
        &self.rest[run_len(self.rest, true)..]
    }
}

impl<'a> Iterator for Words<'a> {
    type Item = &'a [u8];

    ghost next_gives = { λ s r t. MatchOption r (splitting.word s.rest.now ≡ [])
        (λ w. (0 < length w.now) × (w.now ≡ splitting.word s.rest.now))
        × (t.rest.now ≡ splitting.after s.rest.now) };

    ghost remaining = { λ s. at_most (length s.rest.now) };

    fn next(&mut self) -> Option<&'a [u8]> {
        let begun = self.rest();
        let (word, rest) = begun.split_at(run_len(begun, false));
        self.rest = rest;
        if word.is_empty() { None } else { Some(word) }
    }
}

// ---- reading

// The digit that a byte is, or 16.
#[tactic(auto, unfolding(crate::specs::Reading::digit))]
fn digit(c: u8) -> u64
    ensures { result ≡ reading.digit c }
{
    let d = match c {
        b'0'..=b'9' => c - b'0',
        b'A'..=b'F' => c - b'A' + 10,
        b'a'..=b'f' => c - b'a' + 10,
        _ => 16,
    };
    u64::from(d)
}

// n with one digit more.
#[tactic(auto, unfolding(crate::specs::Reading::grown))]
fn grown(base: u64, n: u64, d: u64) -> Option<u64>
    ensures { result ≡ reading.grown base n d }
{
    if base <= d {
        return None;
    }
    n.checked_mul(base)?.checked_add(d)
}

// The digits as one number.
fn read_digits(s: &[u8], base: u64) -> Option<u64>
    ensures { result ≡ reading.reads base (Some 0) s.now }
{
    let mut n = 0;
    for c in s {
        n = grown(base, n, digit(*c))?;
    }
    Some(n)
}

// A decimal number below 2^64.
#[tactic(auto, unfolding(crate::specs::Reading::decimal))]
pub fn read_decimal(s: &[u8]) -> Option<u64>
    ensures { result ≡ reading.decimal s.now }
{
    if s.is_empty() {
        return None;
    }
    read_digits(s, 10)
}

// Whether a word begins with 0x.
fn is_marked(s: &[u8]) -> bool
    ensures { result ≡ reading.marked s.now }
{
    matches!(s, [b'0', b'x', ..])
}

// 0x and 1 to 16 hexadecimal digits.
#[tactic(auto, unfolding(crate::specs::Reading::hexadecimal))]
pub fn read_hexadecimal(s: &[u8]) -> Option<u64>
    ensures { result ≡ reading.hexadecimal s.now }
{
    let [b'0', b'x', digits @ ..] = s else {
        return None;
    };
    match digits.len() {
        1..=16 => read_digits(digits, 16),
        _ => None,
    }
}

// A number in the one form or the other.
#[tactic(auto, unfolding(crate::specs::Reading::number))]
pub fn read_number(s: &[u8]) -> Option<u64>
    ensures { result ≡ reading.number s.now }
{
    if is_marked(s) {
        read_hexadecimal(s)
    } else {
        read_decimal(s)
    }
}

// n as a number of 32 bits.
fn positive(n: u64) -> Option<i32>
    ensures { result ≡ reading.up_to_largest (Some n) }
{
    i32::try_from(n).ok()
}

// -n as a number of 32 bits.
fn negative(n: u64) -> Option<i32>
    ensures { result ≡ reading.down_to_least (Some n) }
{
    i32::try_from(-i64::try_from(n).ok()?).ok()
}

// Whether a word begins with a minus.
fn is_negative(s: &[u8]) -> bool
    ensures { result ≡ reading.negative s.now }
{
    matches!(s, [b'-', ..])
}

// A signed number of 32 bits.
#[tactic(auto, unfolding(crate::specs::Reading::signed))]
pub fn read_signed(s: &[u8]) -> Option<i32>
    ensures { result ≡ reading.signed s.now }
{
    if is_negative(s) {
        negative(read_decimal(&s[1..])?)
    } else {
        positive(read_decimal(s)?)
    }
}

// The side of the digits a, p and q.
#[tactic(auto, unfolding(crate::specs::Reading::side_read))]
fn side_of(a: u64, p: u64, q: u64) -> Option<u64>
    ensures { result ≡ reading.side_read a p q }
{
    if a < 8 && p < 2 && q < 2 {
        Some(4 * a + 2 * p + q)
    } else {
        None
    }
}

// A triangle code in document 01's form, as its word.
pub fn read_code(s: &[u8]) -> Option<u64>
    ensures { result ≡ reading.code s.now }
{
    let [a, p, q, path @ ..] = s else {
        return None;
    };
    if 24 < path.len() {
        return None;
    }
    let side = side_of(digit(*a), digit(*p), digit(*q))?;
    let n = path.len() as u64;
    Some(words::word_of(side, n, read_digits(path, 4)?))
}

// The same, or a word.
#[tactic(auto, unfolding(crate::specs::Reading::code_or_word))]
pub fn read_code_or_word(s: &[u8]) -> Option<u64>
    ensures { result ≡ reading.code_or_word s.now }
{
    if is_marked(s) {
        read_hexadecimal(s)
    } else {
        read_code(s)
    }
}
