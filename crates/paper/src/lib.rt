// Document 02, 2026-13: the codes of source document 000 from and to our words. A code of the paper is the list of its
// digits, one a place.
#![tactic(auto)]

ghost use Rattle.std.specs.Prelude.{◌≡◌, ◌&&◌, ◌∷◌, reverse, ◌*◌, ◌^◌, ◌≤◌, ◌<◌};
ghost use Rattle.words.specs.Family.{code_told};
ghost use Rattle.net.specs.Sides.{IsSide, OneToThree};
ghost use Rattle.net.specs.Division.{corner_of};
ghost use Rattle.net.specs.Means.Paths.{digits_of};
ghost use Rattle.net.specs.Names.{IsName};
ghost use Rattle.corners.specs.Answers.{name_told, count_told};
ghost use Rattle.notation.specs.Domains.{is_a, is_bit};
ghost use Rattle.paper.specs.Answers.{FromDomainAnswer, FromVertexAnswer, ToDomainAnswer, ToVertexAnswer};

use frame::Refusal;
use knots::rings;
use words::{CornerName, TriangleCode};

// The places of a code of degree 24.
const DOMAIN_PLACES: usize = 27;

const VERTEX_PLACES: usize = 26;

// ---- triangles

// Whether a, p and q begin a domain's code.
fn begins(a: u64, p: u64, q: u64) -> bool
    ensures { result ≡ is_a a && (is_bit p && is_bit q) }
{
    if a == 0 {
        return false;
    }
    if 5 < a {
        return false;
    }
    if 1 < p {
        return false;
    }
    q < 2
}

// The triangle of a domain's code.
pub fn from_domain(code: &[u64]) -> Result<TriangleCode, Refusal>
    ensures { FromDomainAnswer code.now (code_told result) }
{
    let m = code.len();
    if DOMAIN_PLACES < m {
        return Err(Refusal::Degree);
    }
    if m < 3 {
        return Err(Refusal::PaperCode);
    }
    let a = code[0];
    let p = code[1];
    let q = code[2];
    if !begins(a, p, q) {
        return Err(Refusal::PaperCode);
    }
    let Some(v) = notation::read_digits(&code[3..]) else {
        return Err(Refusal::PaperCode);
    };
    let s = 4 * a + 2 * p + q;
    Ok(TriangleCode(words::word_of(s, (m - 3) as u64, v)))
}

// The domain's code of a triangle, into a list of at least 27 places.
pub fn to_domain(t: TriangleCode, out: &mut [u64]) -> Result<u64, Refusal>
    ensures { ToDomainAnswer t out.old (count_told result) out.new }
{
    t.check()?;
    if out.len() < DOMAIN_PLACES {
        return Err(Refusal::ShortList);
    }
    let w = t.0;
    let s = words::side_of(w);
    let n = words::degree_of(w);
    out[0] = s / 4;
    out[1] = s / 2 % 2;
    out[2] = s % 2;
    notation::put_digits(n, words::path_of(w, n), &mut out[3..]);
    Ok(n + 3)
}

// ---- vertices

// The name of corner i of the triangle of the side s with the n digits of the path v.
fn name_at(s: u64, n: u64, v: u64, i: u64) -> CornerName
    requires { IsSide s × (n ≤ 24) × (v < 2 ^ (2 * n)) × OneToThree i }
    ensures { IsName n (corner_of s (digits_of n v) i) result }
{
    rings::least_name(CornerName(words::word_of(s, n, v) + i))
}

// The name of the vertex whose code is a, p and the n directions of the path v. A polar one is corner 1 of the domain
// 1p0 with the digits 1, 1, ..; any other is corner 2 of the domain of orientation 0 whose base vertex it is.
fn vertex_name(a: u64, p: u64, n: u64, v: u64) -> Result<CornerName, Refusal>
    requires { (a ≤ 5) × (p ≤ 1) × (n ≤ 24) × (v < 2 ^ (2 * n)) }
    ensures { FromVertexAnswer (a ∷ p ∷ reverse (digits_of n v)) (name_told result) }
{
    if a == 0 {
        if v != 0 {
            return Err(Refusal::PaperCode);
        }
        let ones = (words::power(2 * n) - 1) / 3;
        return Ok(name_at(4 + 2 * p, n, ones, 1));
    }
    let base = notation::parts_of(0, n, v);
    let s = 4 * a + 2 * p + (p + base.orientation) % 2;
    Ok(name_at(s, n, base.path, 2))
}

// The corner's name of a vertex's code.
pub fn from_vertex(code: &[u64]) -> Result<CornerName, Refusal>
    ensures { FromVertexAnswer code.now (name_told result) }
{
    let m = code.len();
    if VERTEX_PLACES < m {
        return Err(Refusal::Degree);
    }
    if m < 2 {
        return Err(Refusal::PaperCode);
    }
    let a = code[0];
    let p = code[1];
    if 5 < a {
        return Err(Refusal::PaperCode);
    }
    if 1 < p {
        return Err(Refusal::PaperCode);
    }
    let Some(v) = notation::read_digits(&code[2..]) else {
        return Err(Refusal::PaperCode);
    };
    vertex_name(a, p, (m - 2) as u64, v)
}

// The vertex's code of a corner's name, into a list of at least 26 places.
pub fn to_vertex(q: CornerName, out: &mut [u64]) -> Result<u64, Refusal>
    ensures { ToVertexAnswer q out.old (count_told result) out.new }
{
    corners::check_name(q)?;
    if out.len() < VERTEX_PLACES {
        return Err(Refusal::ShortList);
    }
    let w = q.0;
    let n = words::degree_of(w);
    let mut weights = [0u64; 12];
    knots::write_corner(knots::code_inside(q), w % 4, &mut weights);
    let code = notation::vertex_of(&weights, n);
    out[0] = code.a;
    out[1] = code.p;
    notation::put_digits(n, code.path, &mut out[2..]);
    Ok(n + 2)
}
