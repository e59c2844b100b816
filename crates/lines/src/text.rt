// A text as it is written: bytes, numbers, words and triangle codes, one after the other.
ghost use Rattle.std.specs.Prelude.{◌≡◌, ℕ, List, [], ◌∷◌, ◌++◌, ◌+◌, ◌*◌, ◌^◌, ◌<◌, ◌≤◌, length, take};
ghost use Rattle.words.specs.Words.{degree_of};
ghost use Rattle.lines.specs.Writing as writing;

use std::marker::Model;

// At most N bytes, in a buffer of their own.
#[derive(Drop)]
pub struct Text<const N: usize> {
    bytes: [u8; N],
    len: usize,
}

// Clauses see the bytes that are written.
impl<const N: usize> Model for Text<N> {
    ghost Value = { List ℕ };

    ghost view = { λ t. take t.len t.bytes };

    ghost invariant = { λ t. t.len ≤ N };
}

fn glyph(d: u64) -> u8
    requires { d < 16 }
    ensures { result ≡ writing.glyph d }
{
    if d < 10 {
        b'0' + d as u8
    } else {
        b'A' + (d - 10) as u8
    }
}

// The last digits of n, over all of a buffer. (On a buffer of their own the length of a text is read and written once,
// and not for each digit.)
fn lay_digits(base: u64, n: u64, out: &mut [u8])
    requires { (0 < base) × (base ≤ 16) }
    ensures { out.new ≡ writing.digits base (length out.old) n }
{
    if let Some((last, others)) = out.split_last_mut() {
        lay_digits(base, n / base, others);
        *last = glyph(n % base);
    }
}

impl<const N: usize> Text<N> {
    // No byte yet.
    pub fn new() -> Self
        ensures { result ≡ [] }
    {
        Text {
            bytes: [0; N],
            len: 0,
        }
    }

    pub fn len(&self) -> usize
        ensures count { result ≡ length self.now }
        ensures within { result ≤ N }
    {
        self.len
    }

    pub fn as_bytes(&self) -> &[u8]
        ensures text { result.now ≡ self.now }
        ensures within { length result.now ≤ N }
    {
        &self.bytes[..self.len]
    }

    // Begins again.
    pub fn clear(&mut self)
        ensures { self.new ≡ [] }
    {
        self.len = 0;
    }

    // One byte.
    pub fn push(&mut self, c: u8)
        requires { length self.old + 1 ≤ N }
        ensures text { self.new ≡ self.old ++ c ∷ [] }
        ensures within { length self.new ≤ length self.old + 1 }
    {
        self.bytes[self.len] = c;
        self.len += 1;
    }

    // A byte string.
    pub fn push_bytes(&mut self, text: &[u8])
        requires { length self.old + length text.now ≤ N }
        ensures text { self.new ≡ self.old ++ text.now }
        ensures within { length self.new ≤ length self.old + length text.now }
    {
        let len = self.len;
        let end = len + text.len();
        let bytes = &mut self.bytes[..];
        bytes[len..end].copy_from_slice(text);
        self.len = end;
    }

    // The last k digits of n.
    fn push_digits(&mut self, base: u64, k: u64, n: u64)
        requires { (0 < base) × (base ≤ 16) × (length self.old + k ≤ N) }
        ensures text { self.new ≡ self.old ++ writing.digits base k n }
        ensures within { length self.new ≤ length self.old + k }
    {
        let len = self.len;
        let count = k as usize;
        let bytes = &mut self.bytes[..];
        lay_digits(base, n, &mut bytes[len..len + count]);
        self.len += count;
    }

    // The last k decimal digits of n, with no zeros in front.
    fn push_decimals(&mut self, k: u64, n: u64)
        requires { length self.old + k ≤ N }
        ensures text { self.new ≡ self.old ++ writing.last_decimals k n }
        ensures within { length self.new ≤ length self.old + k }
    {
        if k == 0 {
            return;
        }
        if 10 <= n {
            self.push_decimals(k - 1, n / 10);
        }
        self.push(glyph(n % 10));
    }

    // A decimal number.
    pub fn push_decimal(&mut self, n: u64)
        requires { length self.old + 20 ≤ N }
        ensures text { self.new ≡ self.old ++ writing.decimal n }
        ensures within { length self.new ≤ length self.old + 20 }
    {
        self.push_decimals(20, n);
    }

    fn push_sign(&mut self, x: i64)
        requires { length self.old + 1 ≤ N }
        ensures text { self.new ≡ self.old ++ writing.sign x }
        ensures within { length self.new ≤ length self.old + 1 }
    {
        if x < 0 {
            self.push(b'-');
        }
    }

    // A signed decimal number.
    pub fn push_signed(&mut self, x: i64)
        requires { length self.old + 21 ≤ N }
        ensures text { self.new ≡ self.old ++ writing.signed_decimal x }
        ensures within { length self.new ≤ length self.old + 21 }
    {
        self.push_sign(x);
        self.push_decimal(x.unsigned_abs());
    }

    // 0x and the last k hexadecimal digits of n.
    fn push_hexadecimal(&mut self, k: u64, n: u64)
        requires { length self.old + (2 + k) ≤ N }
        ensures text { self.new ≡ self.old ++ writing.hexadecimal k n }
        ensures within { length self.new ≤ length self.old + (2 + k) }
    {
        self.push_bytes(b"0x");
        self.push_digits(16, k, n);
    }

    // A word as 0x and sixteen hexadecimal digits.
    pub fn push_word(&mut self, w: u64)
        requires { length self.old + 18 ≤ N }
        ensures text { self.new ≡ self.old ++ writing.hexadecimal 16 w }
        ensures within { length self.new ≤ length self.old + 18 }
    {
        self.push_hexadecimal(16, w);
    }

    // A small word as 0x and eight.
    pub fn push_small_word(&mut self, w: u32)
        requires { length self.old + 10 ≤ N }
        ensures text { self.new ≡ self.old ++ writing.hexadecimal 8 w }
        ensures within { length self.new ≤ length self.old + 10 }
    {
        self.push_hexadecimal(8, u64::from(w));
    }

    // a, p and q of a word.
    fn push_side(&mut self, w: u64)
        requires { length self.old + 3 ≤ N }
        ensures text { self.new ≡ self.old ++ writing.side w }
        ensures within { length self.new ≤ length self.old + 3 }
    {
        self.push_digits(8, 1, w / 2305843009213693952);
        self.push_digits(2, 1, w / 1152921504606846976 % 2);
        self.push_digits(2, 1, w / 576460752303423488 % 2);
    }

    // A triangle code in document 01's form.
    pub fn push_code(&mut self, w: u64)
        requires { (degree_of w ≤ 24) × (length self.old + 27 ≤ N) }
        ensures text { self.new ≡ self.old ++ writing.code w }
        ensures within { length self.new ≤ length self.old + 27 }
    {
        let n = words::degree_of(w);
        self.push_side(w);
        self.push_digits(4, n, words::path_of(w, n));
    }

    // At most k decimals of f / m.
    fn push_places(&mut self, k: u64, m: u64, f: u64)
        requires { (f < m) × (m ≤ 2 ^ 60) × (length self.old + k ≤ N) }
        ensures text { self.new ≡ self.old ++ writing.decimals k m f }
        ensures within { length self.new ≤ length self.old + k }
    {
        if k == 0 || f == 0 {
            return;
        }
        self.push(glyph(f * 10 / m));
        self.push_places(k - 1, m, f * 10 % m);
    }

    // A dot and those, where there are any.
    fn push_fraction(&mut self, k: u64, m: u64, f: u64)
        requires { (f < m) × (m ≤ 2 ^ 60) × (length self.old + k + 1 ≤ N) }
        ensures text { self.new ≡ self.old ++ writing.fraction k m f }
        ensures within { length self.new ≤ length self.old + (k + 1) }
    {
        if f != 0 {
            self.push(b'.');
            self.push_places(k, m, f);
        }
    }

    // t / 2^k exactly, in decimal.
    pub fn push_exact(&mut self, t: i64, k: u64)
        requires { (k ≤ 60) × (length self.old + 82 ≤ N) }
        ensures text { self.new ≡ self.old ++ writing.exact t k }
        ensures within { length self.new ≤ length self.old + 82 }
    {
        let m = words::power(k);
        let size = t.unsigned_abs();
        self.push_sign(t);
        self.push_decimal(size / m);
        self.push_fraction(k, m, size % m);
    }
}
