// The coarse sums of a table of soundings (document 02, 2026-08): what the lists of counts and of sums are to hold and
// what the calls then answer (specs/), with the laws of it (proofs/); in code how four readings are counted and summed.
// What is refused of the two lists is in the crate refusing_sums, how they are written in keeping, the calls are in
// soundings.
#![tactic(auto)]

ghost use Rattle.std.specs.Prelude.{◌≡◌, ◌∷◌, [], ◌+◌, ◌<◌, ◌≤◌, length};
ghost use Rattle.net.specs.Division.{sum};
ghost use Rattle.coarse.specs.Sums.{present};
ghost use Rattle.coarse.specs.Means.Fours.{present_from};

// How many readings there are, and what they come to in millimetres.
#[derive(Clone, Copy)]
pub struct Tally {
    pub count: u64,
    pub sum: u64,
}

// Of one number of a list.
fn tally_of(number: i32) -> Tally
    ensures { (result.count ≡ length (present (number ∷ []))) × (result.sum ≡ sum (present (number ∷ [])))
        × (result.count ≤ 1) × (result.sum < 4294967296) }
{
    if number < 0 {
        return Tally { count: 0, sum: 0 };
    }
    Tally {
        count: 1,
        sum: number as u64,
    }
}

// Of the four places from i on.
pub fn tally_from(list: &[i32], i: usize) -> Tally
    requires { i + 3 < length list.now }
    ensures { (result.count ≡ length (present_from i list.now))
        × (result.sum ≡ sum (present_from i list.now)) }
{
    let a = tally_of(list[i]);
    let b = tally_of(list[i + 1]);
    let c = tally_of(list[i + 2]);
    let d = tally_of(list[i + 3]);
    Tally {
        count: a.count + b.count + c.count + d.count,
        sum: a.sum + b.sum + c.sum + d.sum,
    }
}
