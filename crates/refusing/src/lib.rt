// What the calls on a table of soundings refuse (document 02, 2026-03 and 2026-07): 1 to 4 and 20 to 27.
#![tactic(auto)]

ghost use Rattle.std.specs.Prelude.{◌≡◌, cond, ◌≤◌};
ghost use Rattle.frame.specs.Refusals.{first_of, told_number};
ghost use Rattle.words.specs.Refusals.{IsCode};
ghost use Rattle.tables.specs.Owners.{shared, is_taking};
ghost use Rattle.tables.specs.Refusals.{table_order, large_rows, triangle_rows, table_rows, refuse_call};
ghost use Rattle.tables.specs.Refusals.{desk_order, owner_list_rows, owner_rows, shared_rows, refuse_deed};
ghost use Rattle.tables.specs.Answers.{refused, table_told};

use frame::Refusal;
use searching::{any_bad, any_other, least_bad};
use tables::{Deed, TableRefusal};
use words::TriangleCode;

// ---- of any call

// 1 and 20: of a degree that no table has.
pub fn refuse_degree(degree: u64) -> Result<(), Refusal>
    ensures { told_number result ≡ first_of table_order (large_rows degree) }
{
    match degree {
        0..=6 => Ok(()),
        7..=24 => Err(Refusal::WrongDegree),
        _ => Err(Refusal::Degree),
    }
}

// 1 to 4 and 20: of the degree and the code. The code's refusals stand before 20.
fn refuse_triangle(degree: u64, t: TriangleCode) -> Result<(), Refusal>
    ensures { told_number result ≡ first_of table_order (triangle_rows degree t) }
{
    if 24 < degree {
        return Err(Refusal::Degree);
    }
    t.check()?;
    refuse_degree(degree)?;
    if words::degree_of(t.0) != degree {
        return Err(Refusal::WrongDegree);
    }
    Ok(())
}

// 22 and 23: of the list.
pub fn refuse_list(degree: u64, list: &[i32]) -> Result<(), TableRefusal>
    requires { degree ≤ 6 }
    ensures { table_told result
        ≡ refused list.now (first_of table_order (table_rows degree list.now)) }
{
    if list.len() as u64 != ordering::codes_of(degree) {
        return Err(Refusal::TableLength.into());
    }
    if any_bad(list) {
        return Err(TableRefusal::BadNumber(least_bad(list) as u64));
    }
    Ok(())
}

// 25: of the list of owners.
pub fn refuse_owners(degree: u64, owners: &[u8]) -> Result<(), Refusal>
    requires { degree ≤ 6 }
    ensures { told_number result ≡ first_of desk_order (owner_list_rows degree owners.now) }
{
    if owners.len() as u64 != ordering::codes_of(degree) {
        return Err(Refusal::Owners);
    }
    if any_other(owners) {
        return Err(Refusal::Owners);
    }
    Ok(())
}

// 1 to 23: all refusals of get, and the first of a call that writes; `out` says whether it is handed a reading out of
// range.
pub fn refuse_call(
    out: bool,
    degree: u64,
    t: TriangleCode,
    list: &[i32],
) -> Result<(), TableRefusal>
    ensures { table_told result ≡ refused list.now (refuse_call out degree t list.now) }
{
    refuse_triangle(degree, t)?;
    if out {
        return Err(Refusal::ReadingRange.into());
    }
    refuse_list(degree, list)
}

// ---- of the calls that write

// 27: on a free triangle.
fn refuse_free(deed: Deed) -> Result<(), Refusal>
    ensures { told_number result ≡ cond (is_taking deed) 0 27 }
{
    match deed {
        Deed::Taking => Ok(()),
        Deed::Setting(_) | Deed::Clearing | Deed::Giving => Err(Refusal::NotOwned),
    }
}

// 26 and 27: of the triangle's owner.
fn refuse_owner(deed: Deed, desk: u64, owner: u64) -> Result<(), Refusal>
    ensures { told_number result ≡ first_of desk_order (owner_rows deed desk owner) }
{
    if owner == 0 {
        return refuse_free(deed);
    }
    if owner != desk {
        return Err(Refusal::OtherDesk);
    }
    Ok(())
}

// 24 to 27: of the desk and the owners.
fn refuse_shared(
    deed: Deed,
    desk: u64,
    degree: u64,
    t: TriangleCode,
    owners: &[u8],
) -> Result<(), Refusal>
    requires { (degree ≤ 6) × IsCode degree t }
    ensures { told_number result ≡ first_of desk_order (shared_rows deed desk degree t owners.now) }
{
    if !meanings::is_desk(desk) {
        return Err(Refusal::NoDesk);
    }
    refuse_owners(degree, owners)?;
    let i = ordering::place_of(t) as usize;
    refuse_owner(deed, desk, owners[i] as u64)
}

// 1 to 27: the first refusals of a call that writes, before those of the coarse sums.
pub fn refuse_deed(
    deed: Deed,
    desk: u64,
    degree: u64,
    t: TriangleCode,
    list: &[i32],
    owners: &[u8],
) -> Result<(), TableRefusal>
    ensures { table_told result ≡ refused list.now
        (refuse_deed deed desk degree t (shared list.now owners.now)) }
{
    refuse_call(meanings::is_out_of_range(deed), degree, t, list)?;
    refuse_shared(deed, desk, degree, t, owners)?;
    Ok(())
}
