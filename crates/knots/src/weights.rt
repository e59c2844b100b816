// The twelve weights of a corner, into a lent list.
ghost use Rattle.std.specs.Prelude.{◌≡◌, ◌+◌, ◌≤◌, length};
ghost use Rattle.net.specs.Sides.{IsSide};
ghost use Rattle.net.specs.Steps.{ring_size};
ghost use Rattle.frame.specs.Answers.{over};
ghost use Rattle.net.specs.Means.Spreads.{no_weights, spread, sign};

use net::{Point, seams};

// Twelve zeros over the front of a list; later places are unchanged.
fn clear_twelve(out: &mut [u64])
    requires { 12 ≤ length out.old }
    ensures { out.new ≡ over no_weights out.old }
{
    out[..12].fill(0);
}

// The twelve weights of the point p of the side s over the front of a list; later places are unchanged.
pub fn write_weights(s: u64, p: Point, out: &mut [u64])
    requires { IsSide s × (12 ≤ length out.old) }
    ensures { out.new ≡ over (spread s p) out.old }
{
    clear_twelve(out);
    out[seams::corner_vertex(s, 1) as usize] = p.w1;
    out[seams::corner_vertex(s, 2) as usize] = p.w2;
    out[seams::corner_vertex(s, 3) as usize] = p.w3;
}

fn sign_of(x: u64) -> u64
    ensures { result ≡ sign x }
{
    u64::from(x != 0)
}

// How many triangles lie round a point of a side.
pub fn ring_count(p: Point) -> u64
    ensures { result ≡ ring_size (sign p.w1 + sign p.w2 + sign p.w3) }
{
    if sign_of(p.w1) + sign_of(p.w2) + sign_of(p.w3) == 1 {
        5
    } else {
        6
    }
}
