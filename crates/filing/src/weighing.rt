// Exact coordinates from twelve weights.
ghost use Rattle.std.specs.Prelude.{◌≡◌, ◌<◌};
ghost use Rattle.filing.specs.Coordinates.{exact};
ghost use Rattle.filing.specs.Means.Places.{Twelve, balance_of};

use crate::Coordinates;
use golden::Golden;

// The weights at a and b less those at c and d.
fn balance(ws: &[u64], a: usize, b: usize, c: usize, d: usize) -> i64
    requires { Twelve ws.now × (a < 12) × (b < 12) × (c < 12) × (d < 12) }
    ensures { result ≡ balance_of ws.now a b c d }
{
    let more = ws[a] + ws[b];
    let less = ws[c] + ws[d];
    (more as i64) - (less as i64)
}

// Each part is the weights of the vertices whose direction has 1 (for v: φ) on that axis, less those of the vertices that have -1 (-φ) there.
pub fn exact_of(ws: &[u64]) -> Coordinates
    requires { Twelve ws.now }
    ensures { result ≡ exact ws.now }
{
    Coordinates {
        x: Golden {
            u: balance(ws, 4, 7, 5, 11),
            v: balance(ws, 3, 8, 6, 10),
        },
        y: Golden {
            u: balance(ws, 0, 9, 1, 2),
            v: balance(ws, 4, 5, 7, 11),
        },
        z: Golden {
            u: balance(ws, 3, 6, 8, 10),
            v: balance(ws, 0, 2, 1, 9),
        },
    }
}
