// Writing the answers of the calls, and their parts.
ghost use Rattle.std.specs.Prelude.{◌+◌, ◌≤◌, length};

use grid::{Coordinates, CornerName, Golden, Point, Refusal, Step, Ticks, TriangleCode};
use lines::Text;
use texts::{Call, put_code, put_digits};

// ---- what is not answered

// How a call is written.
pub fn put_usage<const N: usize>(call: Call, out: &mut Text<N>)
    requires { length out.old + 200 ≤ N }
    ensures { length out.new ≤ length out.old + 200 }
{
    out.push_bytes(b"error: write it as ");
    texts::put_form(call, out);
}

pub fn refused<const N: usize>(f: Refusal, out: &mut Text<N>)
    requires { length out.old + 130 ≤ N }
    ensures { length out.new ≤ length out.old + 130 }
{
    out.push_bytes(b"refused ");
    out.push_decimal(u64::from(f));
    out.push_bytes(b": ");
    texts::put_reason(u64::from(f), out);
}

// ---- names

// A name: its word, the corner's number and the triangle.
fn put_name<const N: usize>(w: u64, out: &mut Text<N>)
    requires { length out.old + 200 ≤ N }
    ensures { length out.new ≤ length out.old + 200 }
{
    out.push_word(w);
    out.push_bytes(b" corner ");
    out.push_decimal(w % 4);
    out.push_bytes(b" of ");
    put_digits(w - w % 4, out);
}

// ---- the answers

pub fn check<const N: usize>(answer: Result<(), Refusal>, out: &mut Text<N>)
    requires { length out.old + 200 ≤ N }
    ensures { length out.new ≤ length out.old + 200 }
{
    match answer {
        Ok(()) => out.push_bytes(b"ok"),
        Err(f) => refused(f, out),
    }
}

pub fn code<const N: usize>(answer: Result<TriangleCode, Refusal>, out: &mut Text<N>)
    requires { length out.old + 200 ≤ N }
    ensures { length out.new ≤ length out.old + 200 }
{
    match answer {
        Ok(t) => put_code(t.0, out),
        Err(f) => refused(f, out),
    }
}

// What stands after a neighbour's code: the edge's number there, and those of its corners.
pub fn put_shared<const N: usize>(edge: u64, first: u64, second: u64, out: &mut Text<N>)
    requires { length out.old + 100 ≤ N }
    ensures { length out.new ≤ length out.old + 100 }
{
    out.push_bytes(b" edge ");
    out.push_decimal(edge);
    out.push_bytes(b" corners ");
    out.push_decimal(first);
    out.push(b' ');
    out.push_decimal(second);
}

pub fn step<const N: usize>(answer: Result<Step, Refusal>, out: &mut Text<N>)
    requires { length out.old + 200 ≤ N }
    ensures { length out.new ≤ length out.old + 200 }
{
    match answer {
        Ok(s) => {
            put_code(s.code.0, out);
            put_shared(s.edge, s.first, s.second, out);
        },
        Err(f) => refused(f, out),
    }
}

pub fn name<const N: usize>(answer: Result<CornerName, Refusal>, out: &mut Text<N>)
    requires { length out.old + 200 ≤ N }
    ensures { length out.new ≤ length out.old + 200 }
{
    match answer {
        Ok(q) => put_name(q.0, out),
        Err(f) => refused(f, out),
    }
}

// ---- three axes

// The name of an axis, after a space but at the first.
fn put_axis<const N: usize>(axis: u8, out: &mut Text<N>)
    requires { length out.old + 3 ≤ N }
    ensures { length out.new ≤ length out.old + 3 }
{
    if axis != b'x' {
        out.push(b' ');
    }
    out.push(axis);
    out.push(b' ');
}

fn put_golden<const N: usize>(axis: u8, a: Golden, out: &mut Text<N>)
    requires { length out.old + 50 ≤ N }
    ensures { length out.new ≤ length out.old + 50 }
{
    put_axis(axis, out);
    out.push_signed(a.u);
    out.push(b' ');
    out.push_signed(a.v);
}

pub fn coordinates<const N: usize>(answer: Result<Coordinates, Refusal>, out: &mut Text<N>)
    requires { length out.old + 200 ≤ N }
    ensures { length out.new ≤ length out.old + 200 }
{
    match answer {
        Ok(c) => {
            put_golden(b'x', c.x, out);
            put_golden(b'y', c.y, out);
            put_golden(b'z', c.z, out);
        },
        Err(f) => refused(f, out),
    }
}

fn put_ticks<const N: usize>(axis: u8, t: i64, out: &mut Text<N>)
    requires { length out.old + 30 ≤ N }
    ensures { length out.new ≤ length out.old + 30 }
{
    put_axis(axis, out);
    out.push_signed(t);
}

pub fn ticks<const N: usize>(answer: Result<Ticks, Refusal>, out: &mut Text<N>)
    requires { length out.old + 200 ≤ N }
    ensures { length out.new ≤ length out.old + 200 }
{
    match answer {
        Ok(t) => {
            put_ticks(b'x', t.x, out);
            put_ticks(b'y', t.y, out);
            put_ticks(b'z', t.z, out);
        },
        Err(f) => refused(f, out),
    }
}

// t / (65,536·2^n).
fn put_drawn<const N: usize>(axis: u8, t: i64, n: u64, out: &mut Text<N>)
    requires { (n ≤ 31) × (length out.old + 90 ≤ N) }
    ensures { length out.new ≤ length out.old + 90 }
{
    put_axis(axis, out);
    out.push_exact(t, 16 + n);
}

// Of a word, whose degree says by what t is divided.
pub fn drawn<const N: usize>(w: u64, answer: Result<Ticks, Refusal>, out: &mut Text<N>)
    requires { length out.old + 300 ≤ N }
    ensures { length out.new ≤ length out.old + 300 }
{
    match answer {
        Ok(t) => {
            let n = words::degree_of(w);
            put_drawn(b'x', t.x, n, out);
            put_drawn(b'y', t.y, n, out);
            put_drawn(b'z', t.z, n, out);
        },
        Err(f) => refused(f, out),
    }
}

// The bits of a float. No answer has a float without.
fn put_bits<const N: usize>(axis: u8, x: f64, out: &mut Text<N>)
    requires { length out.old + 30 ≤ N }
    ensures { length out.new ≤ length out.old + 30 }
{
    put_axis(axis, out);
    if x == x {
        out.push_word(f64::to_bits(x));
    }
}

pub fn bits<const N: usize>(answer: Result<Point, Refusal>, out: &mut Text<N>)
    requires { length out.old + 200 ≤ N }
    ensures { length out.new ≤ length out.old + 200 }
{
    match answer {
        Ok(p) => {
            put_bits(b'x', p.x, out);
            put_bits(b'y', p.y, out);
            put_bits(b'z', p.z, out);
        },
        Err(f) => refused(f, out),
    }
}

// ---- a point by its floats

// The size of a float in parts of 2^-40, by its bits. A drawn coordinate is a whole number of these, t divided by 2^16
// and at most 24 times by 2; it is 0 where it is less than one, and none is as large as 2^13.
fn parts_of(b: u64) -> i64 {
    let exponent = b / 0x10_0000_0000_0000 % 2048;
    if exponent < 983 || 1035 < exponent {
        return 0;
    }
    let whole = b % 0x10_0000_0000_0000 + 0x10_0000_0000_0000;
    (whole / words::power(1035 - exponent)) as i64
}

// A float by its bits: the sign, and its size exactly.
fn put_value<const N: usize>(b: u64, out: &mut Text<N>)
    requires { length out.old + 83 ≤ N }
    ensures { length out.new ≤ length out.old + 83 }
{
    if 0x8000_0000_0000_0000 <= b {
        out.push(b'-');
    }
    out.push_exact(parts_of(b), 40);
}

// No answer has a float without bits.
fn put_float<const N: usize>(axis: u8, x: f64, out: &mut Text<N>)
    requires { length out.old + 86 ≤ N }
    ensures { length out.new ≤ length out.old + 86 }
{
    put_axis(axis, out);
    if x == x {
        put_value(f64::to_bits(x), out);
    }
}

// The exact decimals of a drawn point, after a space.
pub fn put_point<const N: usize>(p: Point, out: &mut Text<N>)
    requires { length out.old + 270 ≤ N }
    ensures { length out.new ≤ length out.old + 270 }
{
    out.push(b' ');
    put_float(b'x', p.x, out);
    put_float(b'y', p.y, out);
    put_float(b'z', p.z, out);
}
