// How the lists of counts and of sums of a table of soundings are written (document 02, 2026-08). What they are to hold
// is defined in the crate coarse, below, what is refused of them is in refusing_sums, and the calls are in soundings.
#![tactic(auto)]

ghost use Rattle.std.specs.Prelude.{◌≡◌, ◌+◌, ◌*◌, ◌<◌, ◌≤◌, length, set};
ghost use Rattle.frame.specs.Lists.{below};
ghost use Rattle.words.specs.Refusals.{IsCode};
ghost use Rattle.net.specs.Division.{sum};
ghost use Rattle.tables.specs.Tables.{places};
ghost use Rattle.coarse.specs.Sums.{parents, coarse, coarse_after};
ghost use Rattle.coarse.specs.Means.Fours.{present_from};

use words::TriangleCode;

// For the p-th triangle one degree up.
fn store(p: usize, list: &[i32], counts: &mut [u64], sums: &mut [u64])
    requires { (4 * p + 3 < length list.now) × (p < length counts.old) × (p < length sums.old) }
    ensures { (counts.new ≡ set counts.old p (length (present_from (4 * p) list.now)))
        × (sums.new ≡ set sums.old p (sum (present_from (4 * p) list.now))) }
{
    let tally = coarse::tally_from(list, 4 * p);
    counts[p] = tally.count;
    sums[p] = tally.sum;
}

// For the parent of a triangle whose reading has been written.
pub fn keep(degree: u64, t: TriangleCode, list: &[i32], counts: &mut [u64], sums: &mut [u64])
    requires { (degree ≤ 6) × IsCode degree t × (length list.now ≡ places degree)
        × (length counts.old ≡ parents degree) × (length sums.old ≡ parents degree) }
    ensures { coarse counts.new sums.new
        ≡ coarse_after degree t list.now (coarse counts.old sums.old) }
{
    if degree == 0 {
        return;
    }
    store(ordering::parent_place(t), list, counts, sums);
}

// For every triangle one degree up, in one pass.
pub fn store_all(list: &[i32], counts: &mut [u64], sums: &mut [u64])
    requires { (4 * length counts.old ≤ length list.now) × (length sums.old ≡ length counts.old) }
    ensures { (counts.new
        ≡ below (length counts.old) (λ i. length (present_from (4 * i) list.now)))
        × (sums.new
        ≡ below (length sums.old) (λ i. sum (present_from (4 * i) list.now))) }
{
    for p in 0..counts.len() {
        store(p, list, counts, sums);
    }
}
