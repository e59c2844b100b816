// The walk round a corner, on words: its least name, and the ring.
ghost use Rattle.std.specs.Prelude.{◌≡◌, ◌-◌, ◌*◌, ◌^◌, ◌≤◌, length};
ghost use Rattle.words.specs.Words.{degree_of};
ghost use Rattle.words.specs.Refusals.{check_name_fields};
ghost use Rattle.net.specs.Corners.{name_of};
ghost use Rattle.frame.specs.Answers.{over};
ghost use Rattle.net.specs.Means.Walks.{place_at, around, name_at, least_name, ring_words};

use net::seams;
use net::steps::{ABOVE, over_seam, span_of};
use words::CornerName;

// The next triangle anticlockwise, with the corner's number there: inside a side that is changed by k too.
fn around(r: u64, unit: u64) -> u64
    requires { (check_name_fields (name_of r) ≡ 0) × (unit ≡ 2 ^ (54 - 2 * degree_of r)) }
    ensures { result ≡ name_at (around (place_at r)) }
{
    let k = seams::next_of(r % 4);
    let x = span_of(r, unit, k);
    if x < ABOVE {
        return r ^ (k * (x + 1));
    }
    over_seam(r, k)
}

// The least name here and in the m triangles that follow round the corner.
fn least_of(m: u64, r: u64, unit: u64) -> u64
    requires { (check_name_fields (name_of r) ≡ 0) × (unit ≡ 2 ^ (54 - 2 * degree_of r)) }
    ensures { result ≡ least_name m (place_at r) }
{
    if m == 0 {
        return r;
    }
    r.min(least_of(m - 1, around(r, unit), unit))
}

// The canonical name of the corner that a word with a name's fields has.
pub fn least_name(r: CornerName) -> CornerName
    requires { check_name_fields r ≡ 0 }
    ensures { result ≡ name_of (least_name 5 (place_at r.0)) }
{
    let w = r.0;
    CornerName(least_of(5, w, words::unit_of(w)))
}

// The codes of m triangles round the corner that a name names, from its own on, over the front of a list; later places
// are unchanged.
pub fn write_ring(r: CornerName, m: u64, out: &mut [u64])
    requires { (check_name_fields r ≡ 0) × (1 ≤ m) × (m ≤ length out.old) }
    ensures { out.new ≡ over (ring_words m (place_at r.0)) out.old }
{
    let mut q = r.0;
    let unit = words::unit_of(q);
    let count = m as usize;
    out[0] = q - q % 4;
    for i in 1..count {
        q = around(q, unit);
        out[i] = q - q % 4;
    }
}
