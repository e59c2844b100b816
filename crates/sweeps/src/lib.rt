// Filing a sweep (document 02, 2026-04): what is answered of a lent list of directions, three numbers each, and a lent
// list of codes (specs/), with the laws of it (proofs/); in code what two parts come to, and the first place that has 0.
// The call is in the crate sweeper.
#![tactic(auto)]

ghost use Rattle.std.specs.Prelude.{◌≡◌, ◌+◌, ◌^◌, ◌<◌};
ghost use Rattle.frame.specs.Lists.{first_place};
ghost use Rattle.sweeps.specs.Answers.{sweep_told, unfiled_told};
ghost use Rattle.sweeps.specs.Promises.{joined};
ghost use Rattle.sweeps.specs.Means.Counted.{is_zero};

use frame::Refusal;

// What is not filed of a sweep, where something is not: how many directions are refused, and the first one's place,
// from 0, and refusal.
#[derive(Clone, Copy, Debug, PartialEq, Eq, Hash)]
pub struct Unfiled {
    pub count: u64,
    pub place: u64,
    pub refusal: Refusal,
}

// What two parts come to, of what a sweep answers of each, the first of h directions. (Of a part that is refused as a
// whole nothing is refused, as where its count is 0: any two answers can be joined.)
pub fn join(
    h: u64,
    a: Result<Option<Unfiled>, Refusal>,
    b: Result<Option<Unfiled>, Refusal>,
) -> Option<Unfiled>
    requires { ((sweep_told a).refused + (sweep_told b).refused < 2 ^ 64)
        × (h + (sweep_told b).place < 2 ^ 64) }
    ensures { unfiled_told result ≡ joined h (sweep_told a) (sweep_told b) }
{
    let a = a.unwrap_or(None);
    let b = b.unwrap_or(None);
    let later = match b {
        Some(b) => b.count,
        None => 0,
    };
    match a {
        Some(a) if a.count != 0 => Some(Unfiled {
            count: a.count + later,
            ..a
        }),
        _ => match b {
            Some(b) if b.count != 0 => Some(Unfiled {
                place: h + b.place,
                ..b
            }),
            _ => None,
        },
    }
}

// The first place that has 0; the length where there is none.
pub fn first_zero(codes: &[u64]) -> usize
    ensures { result ≡ first_place is_zero codes.now }
{
    codes
        .iter()
        .position(|&code| code == 0)
        .unwrap_or(codes.len())
}
