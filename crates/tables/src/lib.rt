// A table of soundings that two desks share (document 02, 2026-03 and 2026-07): what its lists hold and what its calls
// answer (specs/), with the laws of it (proofs/); in code the kinds of value that the calls speak of, and nothing else.
// Which numbers are readings and which are owners is in the crate meanings, what is refused in refusing, the calls
// themselves are in soundings.
#![tactic(auto)]

ghost use Rattle.std.specs.Prelude.{◌≡◌};
ghost use Rattle.tables.specs.declared.TableRefusal.TheVariants.{Call};

use frame::Refusal;

// What a table has for a triangle: no reading, or one in millimetres.
pub type Sounding = Option<i32>;

// What a desk is to do with a triangle: take it, set this reading, clear, or give it back.
#[derive(Clone, Copy, Debug, PartialEq, Eq, Hash)]
pub enum Deed {
    Taking,
    Setting(i32),
    Clearing,
    Giving,
}

// Why a call on a table refuses: as any call does, or by 23, which tells the least bad place too.
#[derive(Clone, Copy, Debug, PartialEq, Eq, Hash)]
pub enum TableRefusal {
    Call(Refusal),
    BadNumber(u64),
}

impl From<Refusal> for TableRefusal {
    ghost from_gives = { λ f e. e ≡ Call f };

    fn from(f: Refusal) -> TableRefusal {
        TableRefusal::Call(f)
    }
}
