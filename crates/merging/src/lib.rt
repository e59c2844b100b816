// Merging in a list of cells (document 02, 2026-10): four whole children give way to their parent, degree by degree,
// the deepest first; and what is written of a list that is judged.
//
// The list that is worked in has ranks (crate cells), in which the children of one triangle have equal distances, and a
// triangle stands just before its first child.
#![tactic(auto)]

ghost use Rattle.std.specs.Prelude.{◌≡◌, map, ◌+◌, ◌^◌, ◌<◌, ◌≤◌, length, get_or, take, drop};
ghost use Rattle.frame.specs.Answers.{over};
ghost use Rattle.merging.specs.Means.Joining.{Small, word_at, in_ranks, starts_four, joined_at, joins_at};
ghost use Rattle.merging.specs.Means.Joining.{joined_below, joins_below, fives, dropped_words, dropped_reasons};
ghost use Rattle.merging.specs.Means.Joining.{Added};

// ---- ranks and words

// The code that has this rank.
fn word_at(rank: u64) -> u64
    requires { rank < 2 ^ 59 }
    ensures { result ≡ word_at rank }
{
    let side = rank / 18014398509481984;
    let degree = rank % 32;
    side * 576460752303423488 + degree * 18014398509481984 + (rank % 18014398509481984 - degree)
}

// The codes of a list of ranks, over the front of another.
pub fn put_words(ranks: &[u64], out: &mut [u64])
    requires { (length ranks.now ≤ length out.old) × Small ranks.now }
    ensures { out.new ≡ over (map word_at ranks.now) out.old }
{
    for (k, &rank) in ranks.iter().enumerate() {
        out[k] = word_at(rank);
    }
}

// ---- the change list

// The words that have a reason, and their reasons, over the fronts of two lists.
pub fn put_dropped(words: &[u64], why: &[u64], changed: &mut [u64], reasons: &mut [u64]) -> usize
    requires { (length words.now ≤ length why.now) × (length words.now ≤ length changed.old)
        × (length words.now ≤ length reasons.old) }
    ensures { Added changed.old changed.new 0 result
        (dropped_words words.now why.now)
        × Added reasons.old reasons.new 0 result
        (dropped_reasons words.now why.now) }
{
    let mut c = 0;
    for (i, &w) in words.iter().enumerate() {
        let reason = why[i];
        if reason != 0 {
            changed[c] = w;
            reasons[c] = reason;
            c += 1;
        }
    }
    c
}

// ---- merging

// Whether four ranks are those of the children of one triangle of degree d, in order.
fn in_row(d: u64, a: u64, b: u64, c: u64, e: u64) -> bool
    requires { (d < 24) × (a < 2 ^ 59) }
    ensures { result ≡ in_ranks d a b c e }
{
    if a % 64 != d + 1 {
        return false;
    }
    let unit = words::power(52 - 2 * d);
    if a % (4 * unit) != d + 1 {
        return false;
    }
    if b != a + unit {
        return false;
    }
    if c != a + 2 * unit {
        return false;
    }
    e == a + 3 * unit
}

// Whether a list begins with four such ranks.
fn four(d: u64, ranks: &[u64]) -> bool
    requires { (d < 24) × (get_or ranks.now 0 0 < 2 ^ 59) }
    ensures { result ≡ starts_four d ranks.now }
{
    match ranks {
        [a, b, c, e, ..] => in_row(d, *a, *b, *c, *e),
        _ => false,
    }
}

// How many codes there are, and how many changes.
#[derive(Clone, Copy)]
pub struct Counts {
    pub count: usize,
    pub changes: usize,
}

// The merges of one degree: from place `changes` on they are added to the change list.
fn merge_at(
    d: u64,
    ranks: &mut [u64],
    count: usize,
    changed: &mut [u64],
    reasons: &mut [u64],
    changes: usize,
) -> Counts
    requires { (d < 24) × (count ≤ length ranks.old) × Small (take count ranks.old)
        × (changes + length (joins_at d (take count ranks.old)) ≤ length changed.old)
        × (changes + length (joins_at d (take count ranks.old)) ≤ length reasons.old) }
    ensures { (result.count ≤ count) × (take result.count ranks.new ≡ joined_at d (take count ranks.old))
        × Added changed.old changed.new changes result.changes
        (map word_at (joins_at d (take count ranks.old)))
        × Added reasons.old reasons.new changes result.changes
        (fives (joins_at d (take count ranks.old))) }
{
    let mut i = 0;
    let mut j = 0;
    let mut c = changes;
    // A pass takes one place or four, so no for counts them.
    while i < count {
        let mut rank = ranks[i];
        if four(d, &ranks[i..count]) {
            rank -= 1;
            changed[c] = word_at(rank);
            reasons[c] = 5;
            c += 1;
            i += 4;
        } else {
            i += 1;
        }
        ranks[j] = rank;
        j += 1;
    }
    Counts {
        count: j,
        changes: c,
    }
}

// The merges of all degrees, the deepest first.
pub fn merge_all(
    ranks: &mut [u64],
    count: usize,
    changed: &mut [u64],
    reasons: &mut [u64],
    changes: usize,
) -> Counts
    requires { (count ≤ length ranks.old) × Small (take count ranks.old)
        × (changes + length (joins_below 24 (take count ranks.old)) ≤ length changed.old)
        × (changes + length (joins_below 24 (take count ranks.old)) ≤ length reasons.old) }
    ensures { (result.count ≤ count) × (take result.count ranks.new ≡ joined_below 24 (take count ranks.old))
        × Added changed.old changed.new changes result.changes
        (map word_at (joins_below 24 (take count ranks.old)))
        × Added reasons.old reasons.new changes result.changes
        (fives (joins_below 24 (take count ranks.old))) }
{
    let mut n = count;
    let mut c = changes;
    for d in (0..24).rev() {
        let z = merge_at(d, ranks, n, changed, reasons, c);
        n = z.count;
        c = z.changes;
    }
    Counts {
        count: n,
        changes: c,
    }
}
