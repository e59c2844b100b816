// Checking another yard's list of cells (document 02, 2026-09): words, each the code of a triangle, in the order of the
// tree.
#![tactic(auto)]

ghost use Rattle.std.specs.Prelude.{◌≡◌, true, ◌*◌, IfOk};
ghost use Rattle.cells.specs.Order.{valid};
ghost use Rattle.cells.specs.Checking.{reason_number, reason_told, verdict_told, checked};
ghost use Rattle.cells.specs.Means.Ranks.{start, reach, reason_by, reason_after};

use words::TriangleCode;

// Why a word offends, by the number that the document has for it.
#[derive(Clone, Copy, Debug, PartialEq, Eq, Hash)]
pub enum Reason {
    Invalid,
    Less,
    Equal,
    Inside,
}

impl From<Reason> for u64 {
    ghost from_gives = { λ r n. n ≡ reason_number r };

    fn from(r: Reason) -> u64 {
        match r {
            Reason::Invalid => 1,
            Reason::Less => 2,
            Reason::Equal => 3,
            Reason::Inside => 4,
        }
    }
}

// The first offending place of a list, from 0, and its reason.
#[derive(Clone, Copy, Debug, PartialEq, Eq, Hash)]
pub struct Offence {
    pub reason: Reason,
    pub place: u64,
}

// Where a triangle stands in the order of the tree: its rank is below that of each triangle inside it, these are below
// its end, and those of all that follow are not.
#[derive(Clone, Copy, Debug, PartialEq, Eq, Hash)]
pub struct Reach {
    pub rank: u64,
    pub end: u64,
}

// The side and the digits of a code, as they stand in it, without its degree.
fn start_of(w: u64) -> u64
    requires { valid w ≡ true }
    ensures { result ≡ 64 * start w }
{
    words::side_of(w) * 18014398509481984 + w % 18014398509481984
}

// The reach of a code. Below its digits there is room for the degree.
pub fn reach_of(w: u64) -> Reach
    requires { valid w ≡ true }
    ensures { result ≡ reach w }
{
    let start = start_of(w);
    Reach {
        rank: start + words::degree_of(w),
        end: start + words::unit_of(w),
    }
}

// Whether a code offends after the word before it.
fn reason_after(last: Reach, own: Reach) -> Result<(), Reason>
    ensures { reason_told result ≡ reason_by last own.rank }
{
    if own.rank < last.rank {
        return Err(Reason::Less);
    }
    if own.rank == last.rank {
        return Err(Reason::Equal);
    }
    if own.rank < last.end {
        return Err(Reason::Inside);
    }
    Ok(())
}

// Looks at a word after words that offend in nothing, of which the last one has this reach: its own reach, or why it
// offends.
pub fn look_at(w: u64, last: Reach) -> Result<Reach, Reason>
    ensures reason { reason_told result ≡ reason_after last w }
    ensures own { IfOk result (λ own. own ≡ reach w) }
{
    if TriangleCode(w).check().is_err() {
        return Err(Reason::Invalid);
    }
    let own = reach_of(w);
    reason_after(last, own)?;
    Ok(own)
}

// Checks a list in one pass: where the words so far are accepted, the last of them decides.
pub fn check(words: &[u64]) -> Result<(), Offence>
    ensures { verdict_told result ≡ checked words.now }
{
    let mut last = Reach { rank: 0, end: 0 };
    for (i, &w) in words.iter().enumerate() {
        match look_at(w, last) {
            Ok(own) => last = own,
            Err(reason) => {
                return Err(Offence {
                    reason,
                    place: i as u64,
                });
            }
        }
    }
    Ok(())
}
