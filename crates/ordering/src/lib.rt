// The codes of a degree in rising order: how many there are, the place of one and of its parent, the one at a place.
#![tactic(auto)]

ghost use Rattle.std.specs.Prelude.{◌≡◌, ◌*◌, ◌^◌, ◌<◌, ◌≤◌};
ghost use Rattle.words.specs.Words.{degree_of};
ghost use Rattle.words.specs.Refusals.{check_code};
ghost use Rattle.words.specs.Family.{parent_of};
ghost use Rattle.words.specs.Counting.{code_at, place_of};

use words::TriangleCode;

// How many there are.
pub fn codes_of(n: u64) -> u64
    requires { n ≤ 24 }
    ensures { result ≡ 20 * 4 ^ n }
{
    20 * words::power(2 * n)
}

// The place of a code among those of its degree, from 0.
pub fn place_of(t: TriangleCode) -> u64
    requires { check_code t ≡ 0 }
    ensures { result ≡ place_of t }
{
    let w = t.0;
    let n = words::degree_of(w);
    (words::side_of(w) - 4) * words::power(2 * n) + words::path_of(w, n)
}

// The place of a triangle's parent.
pub fn parent_place(t: TriangleCode) -> usize
    requires { (check_code t ≡ 0) × (1 ≤ degree_of t.0) }
    ensures { result ≡ place_of (parent_of t) }
{
    place_of(t) as usize / 4
}

// The code that has a place.
pub fn code_at(n: u64, place: u64) -> TriangleCode
    requires { (n ≤ 24) × (place < 20 * 4 ^ n) }
    ensures { result ≡ code_at n place }
{
    let each = words::power(2 * n);
    TriangleCode(words::word_of(4 + place / each, n, place % each))
}
