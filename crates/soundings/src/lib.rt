// The calls of a table of soundings (document 02, 2026-03, 2026-07 and 2026-08), which has one reading for each
// triangle of one degree from 0 to 6, in a lent list ordered by code, each triangle's owner in another, and the count
// and the sum of the readings of each triangle one degree up in two more: `get`, which is lent the readings alone;
// `take`, `set`, `clear` and `give`, which are lent all four lists and told the desk that makes the call; and
// `work_out`, which works counts and sums out afresh. None has a `requires`; each states its complete answer, and the
// crate contracts holds it to that.
#![tactic(auto)]

ghost use Rattle.std.specs.Prelude.{◌≡◌, ◌<◌, length};
ghost use Rattle.words.specs.Refusals.{check_code};
ghost use Rattle.words.specs.Counting.{place_of};
ghost use Rattle.tables.specs.Owners.{shared, shared_after};
ghost use Rattle.tables.specs.Answers.{refused, table_told, sounding_told, GetAnswer};
ghost use Rattle.coarse.specs.Sums.{coarse, chart};
ghost use Rattle.coarse.specs.Refusals.{refuse_kept, refuse_work_out};
ghost use Rattle.coarse.specs.Answers.{KeptAnswer, TakeAnswer, SetAnswer, ClearAnswer, GiveAnswer, WorkOutAnswer};

use tables::Deed;
pub use tables::{Sounding, TableRefusal};
use words::TriangleCode;

// ---- get

// What the table has for a triangle.
pub fn get(degree: u64, t: TriangleCode, list: &[i32]) -> Result<Sounding, TableRefusal>
    ensures { GetAnswer degree t list.now (sounding_told result) }
{
    refusing::refuse_call(false, degree, t, list)?;
    let i = ordering::place_of(t) as usize;
    Ok(meanings::said_of(list[i]))
}

// ---- take, set, clear and give

// The four lists are lent one by one: of a struct of them a contract would say what is left by nested pairs, as
// `self.exit.1.1.0.now` for the counts, which is no plainer than `counts.new`.

// All refusals.
fn refuse_kept(
    deed: Deed,
    desk: u64,
    degree: u64,
    t: TriangleCode,
    list: &[i32],
    owners: &[u8],
    counts: &[u64],
    sums: &[u64],
) -> Result<(), TableRefusal>
    ensures { table_told result ≡ refused list.now (refuse_kept deed desk degree t
        (chart (shared list.now owners.now) (coarse counts.now sums.now))) }
{
    refusing::refuse_deed(deed, desk, degree, t, list, owners)?;
    refusing_sums::refuse_coarse(degree, t, list, counts, sums)?;
    Ok(())
}

// What the deed leaves at its triangle's place of the readings and of the owners.
fn write(deed: Deed, desk: u8, t: TriangleCode, list: &mut [i32], owners: &mut [u8])
    requires { (check_code t ≡ 0) × (place_of t < length list.old) × (place_of t < length owners.old) }
    ensures { shared list.new owners.new
        ≡ shared_after deed desk t (shared list.old owners.old) }
{
    let i = ordering::place_of(t) as usize;
    list[i] = meanings::number_after(deed, list[i]);
    owners[i] = meanings::owner_after(deed, desk, owners[i]);
}

// Checks all, and then writes one place of each list.
fn carry_out(
    deed: Deed,
    desk: u64,
    degree: u64,
    t: TriangleCode,
    list: &mut [i32],
    owners: &mut [u8],
    counts: &mut [u64],
    sums: &mut [u64],
) -> Result<(), TableRefusal>
    ensures { KeptAnswer deed desk degree t (chart (shared list.old owners.old)
        (coarse counts.old sums.old)) (table_told result)
        (chart (shared list.new owners.new) (coarse counts.new sums.new)) }
{
    refuse_kept(deed, desk, degree, t, list, owners, counts, sums)?;
    // A desk is 1 or 2 here.
    write(deed, desk as u8, t, list, owners);
    keeping::keep(degree, t, list, counts, sums);
    Ok(())
}

// A free triangle becomes the desk's, with the reading that it has.
pub fn take(
    desk: u64,
    degree: u64,
    t: TriangleCode,
    list: &mut [i32],
    owners: &mut [u8],
    counts: &mut [u64],
    sums: &mut [u64],
) -> Result<(), TableRefusal>
    ensures { TakeAnswer desk degree t (chart (shared list.old owners.old)
        (coarse counts.old sums.old)) (table_told result)
        (chart (shared list.new owners.new) (coarse counts.new sums.new)) }
{
    carry_out(Deed::Taking, desk, degree, t, list, owners, counts, sums)
}

// Sets the reading of a triangle of the desk's.
pub fn set(
    desk: u64,
    degree: u64,
    t: TriangleCode,
    reading: i32,
    list: &mut [i32],
    owners: &mut [u8],
    counts: &mut [u64],
    sums: &mut [u64],
) -> Result<(), TableRefusal>
    ensures { SetAnswer desk degree t reading (chart (shared list.old owners.old)
        (coarse counts.old sums.old)) (table_told result)
        (chart (shared list.new owners.new) (coarse counts.new sums.new)) }
{
    carry_out(
        Deed::Setting(reading),
        desk,
        degree,
        t,
        list,
        owners,
        counts,
        sums,
    )
}

// Leaves a triangle of the desk's with no reading.
pub fn clear(
    desk: u64,
    degree: u64,
    t: TriangleCode,
    list: &mut [i32],
    owners: &mut [u8],
    counts: &mut [u64],
    sums: &mut [u64],
) -> Result<(), TableRefusal>
    ensures { ClearAnswer desk degree t (chart (shared list.old owners.old)
        (coarse counts.old sums.old)) (table_told result)
        (chart (shared list.new owners.new) (coarse counts.new sums.new)) }
{
    carry_out(Deed::Clearing, desk, degree, t, list, owners, counts, sums)
}

// A triangle of the desk's becomes nobody's, with no reading.
pub fn give(
    desk: u64,
    degree: u64,
    t: TriangleCode,
    list: &mut [i32],
    owners: &mut [u8],
    counts: &mut [u64],
    sums: &mut [u64],
) -> Result<(), TableRefusal>
    ensures { GiveAnswer desk degree t (chart (shared list.old owners.old)
        (coarse counts.old sums.old)) (table_told result)
        (chart (shared list.new owners.new) (coarse counts.new sums.new)) }
{
    carry_out(Deed::Giving, desk, degree, t, list, owners, counts, sums)
}

// ---- the sums worked out afresh

// Its refusals.
fn refuse_work_out(
    degree: u64,
    list: &[i32],
    counts: &[u64],
    sums: &[u64],
) -> Result<(), TableRefusal>
    ensures { table_told result ≡ refused list.now
        (refuse_work_out degree list.now (coarse counts.now sums.now)) }
{
    refusing::refuse_degree(degree)?;
    refusing::refuse_list(degree, list)?;
    refusing_sums::refuse_lengths(degree, counts, sums)?;
    Ok(())
}

// All counts and sums, of a table opened from elsewhere.
pub fn work_out(
    degree: u64,
    list: &[i32],
    counts: &mut [u64],
    sums: &mut [u64],
) -> Result<(), TableRefusal>
    ensures { WorkOutAnswer degree list.now (coarse counts.old sums.old)
        (table_told result)
        (coarse counts.new sums.new) }
{
    refuse_work_out(degree, list, counts, sums)?;
    keeping::store_all(list, counts, sums);
    Ok(())
}
