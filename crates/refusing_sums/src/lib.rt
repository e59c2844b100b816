// What is refused of the lists of counts and of sums of a table of soundings (document 02, 2026-08): 28 and 29. What
// they are to hold is defined in the crate coarse, below; how they are written is in keeping, the calls are in
// soundings.
#![tactic(auto)]

ghost use Rattle.std.specs.Prelude.{◌≡◌, ◌≤◌, length};
ghost use Rattle.frame.specs.Refusals.{first_of, told_number};
ghost use Rattle.words.specs.Refusals.{IsCode};
ghost use Rattle.tables.specs.Tables.{places};
ghost use Rattle.coarse.specs.Sums.{parents, coarse};
ghost use Rattle.coarse.specs.Refusals.{sum_order, length_rows, coarse_rows};

use frame::Refusal;
use words::TriangleCode;

// How many triangles there are one degree up.
pub fn parents_of(degree: u64) -> u64
    requires { degree ≤ 6 }
    ensures { result ≡ parents degree }
{
    if degree == 0 {
        return 0;
    }
    ordering::codes_of(degree - 1)
}

// 28: of the lengths.
pub fn refuse_lengths(degree: u64, counts: &[u64], sums: &[u64]) -> Result<(), Refusal>
    requires { degree ≤ 6 }
    ensures { told_number result
        ≡ first_of sum_order (length_rows degree (coarse counts.now sums.now)) }
{
    let n = parents_of(degree);
    if counts.len() as u64 != n {
        return Err(Refusal::SumsLength);
    }
    if sums.len() as u64 != n {
        return Err(Refusal::SumsLength);
    }
    Ok(())
}

// 28 and 29: of the lengths, and of what is stored for the triangle's parent.
pub fn refuse_coarse(
    degree: u64,
    t: TriangleCode,
    list: &[i32],
    counts: &[u64],
    sums: &[u64],
) -> Result<(), Refusal>
    requires { (degree ≤ 6) × IsCode degree t × (length list.now ≡ places degree) }
    ensures { told_number result ≡ first_of sum_order
        (coarse_rows degree t list.now (coarse counts.now sums.now)) }
{
    refuse_lengths(degree, counts, sums)?;
    if degree == 0 {
        return Ok(());
    }
    let p = ordering::parent_place(t);
    let right = coarse::tally_from(list, 4 * p);
    if counts[p] != right.count {
        return Err(Refusal::SumsDiffer);
    }
    if sums[p] != right.sum {
        return Err(Refusal::SumsDiffer);
    }
    Ok(())
}
