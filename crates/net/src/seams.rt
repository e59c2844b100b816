// The twenty sides: their corners, the side across each edge, and the number that is kept there.
ghost use Rattle.std.specs.Prelude.{◌≡◌, ◌<◌, ◌≤◌};
ghost use Rattle.words.specs.Words.{side};
ghost use Rattle.net.specs.Sides.{nth, after, before, vertex, side_corner, corner_vertex, next};
ghost use Rattle.net.specs.Means.Seams.{seam_of, seam_side, seam_kept};

// The first, second or third of three.
pub fn of_three(i: u64, x: u64, y: u64, z: u64) -> u64
    ensures { result ≡ nth i x y z }
{
    match i {
        1 => x,
        2 => y,
        _ => z,
    }
}

// The corner that follows corner i, anticlockwise.
pub fn next_of(i: u64) -> u64
    ensures { result ≡ next i }
{
    of_three(i, 2, 3, 1)
}

// a+ and a-.
fn next_a(a: u64) -> u64
    requires { a ≤ 5 }
    ensures { result ≡ after a }
{
    a % 5 + 1
}

fn previous_a(a: u64) -> u64
    requires { a ≤ 5 }
    ensures { result ≡ before a }
{
    (a + 3) % 5 + 1
}

// The place of V(ab) in the order of the weights.
fn vertex_at(a: u64, b: u64) -> u64
    requires { a ≤ 5 }
    ensures { result ≡ vertex a b }
{
    if a == 0 {
        if b == 0 {
            return 0;
        }
        return 1;
    }
    if b == 0 {
        return a + 1;
    }
    a + 6
}

// Corner i of the side apq.
fn side_corner(p: u64, q: u64, a: u64, i: u64) -> u64
    requires { a ≤ 5 }
    ensures { result ≡ side_corner p q a i }
{
    let b = next_a(a);
    match p {
        0 => match q {
            0 => of_three(i, vertex_at(0, 0), vertex_at(a, 0), vertex_at(b, 0)),
            _ => of_three(i, vertex_at(a, 1), vertex_at(b, 0), vertex_at(a, 0)),
        },
        _ => match q {
            0 => of_three(i, vertex_at(0, 1), vertex_at(b, 1), vertex_at(a, 1)),
            _ => of_three(i, vertex_at(b, 0), vertex_at(a, 1), vertex_at(b, 1)),
        },
    }
}

// The vertex that is corner i of the side s.
pub fn corner_vertex(s: u64, i: u64) -> u64
    requires { s < 24 }
    ensures { result ≡ corner_vertex s i }
{
    side_corner(s / 2 % 2, s % 2, s / 4, i)
}

// The number of the side apq.
fn side_number(a: u64, p: u64, q: u64) -> u64
    requires { (a ≤ 5) × (p ≤ 1) × (q ≤ 1) }
    ensures { result ≡ side a p q }
{
    4 * a + 2 * p + q
}

// The side across edge k of the side apq.
fn seam_of(p: u64, q: u64, a: u64, k: u64) -> u64
    requires { a ≤ 5 }
    ensures { result ≡ seam_of p q a k }
{
    let up = next_a(a);
    let down = previous_a(a);
    match p {
        0 => match q {
            0 => of_three(
                k,
                side_number(a, 0, 1),
                side_number(up, 0, 0),
                side_number(down, 0, 0),
            ),
            _ => of_three(
                k,
                side_number(a, 0, 0),
                side_number(down, 1, 1),
                side_number(a, 1, 1),
            ),
        },
        _ => match q {
            0 => of_three(
                k,
                side_number(a, 1, 1),
                side_number(down, 1, 0),
                side_number(up, 1, 0),
            ),
            _ => of_three(
                k,
                side_number(a, 1, 0),
                side_number(up, 0, 1),
                side_number(a, 0, 1),
            ),
        },
    }
}

pub fn seam_side(s: u64, k: u64) -> u64
    requires { s < 24 }
    ensures { result ≡ seam_side s k }
{
    seam_of(s / 2 % 2, s % 2, s / 4, k)
}

// The number that is kept over the seam.
pub fn seam_kept(s: u64, k: u64) -> u64
    ensures { result ≡ seam_kept s k }
{
    let q = s % 2;
    match q {
        0 => 1,
        _ => k,
    }
}
