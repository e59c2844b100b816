// What every call's promise is made of: why a call refuses, definitions (specs/), and laws (proofs/).
#![tactic(auto)]

ghost use Rattle.std.specs.Prelude.{◌≡◌};
ghost use Rattle.frame.specs.Refusals.{number, told_number};

// Why a call refuses: 'Refusal numbers' of document 01, and after them those of document 02.
#[derive(Clone, Copy, Debug, PartialEq, Eq, Hash)]
pub enum Refusal {
    // 1 to 11
    Degree,
    Side,
    BeyondDegree,
    LowBits,
    Argument,
    NoSuchKin,
    ZeroDirection,
    FarDirection,
    ShortList,
    NotCanonical,
    NoCorner,
    // 20 to 29; 23 tells a place too, and is a case of its own in the crate tables
    WrongDegree,
    ReadingRange,
    TableLength,
    NoDesk,
    Owners,
    OtherDesk,
    NotOwned,
    SumsLength,
    SumsDiffer,
    // 30 to 33
    SmallDegree,
    LastBit,
    LongList,
    PaperCode,
}

// Its number in the documents.
impl From<Refusal> for u64 {
    ghost from_gives = { λ f n. n ≡ number f };

    fn from(f: Refusal) -> u64 {
        match f {
            Refusal::Degree => 1,
            Refusal::Side => 2,
            Refusal::BeyondDegree => 3,
            Refusal::LowBits => 4,
            Refusal::Argument => 5,
            Refusal::NoSuchKin => 6,
            Refusal::ZeroDirection => 7,
            Refusal::FarDirection => 8,
            Refusal::ShortList => 9,
            Refusal::NotCanonical => 10,
            Refusal::NoCorner => 11,
            Refusal::WrongDegree => 20,
            Refusal::ReadingRange => 21,
            Refusal::TableLength => 22,
            Refusal::NoDesk => 24,
            Refusal::Owners => 25,
            Refusal::OtherDesk => 26,
            Refusal::NotOwned => 27,
            Refusal::SumsLength => 28,
            Refusal::SumsDiffer => 29,
            Refusal::SmallDegree => 30,
            Refusal::LastBit => 31,
            Refusal::LongList => 32,
            Refusal::PaperCode => 33,
        }
    }
}

// The number that a call for a host in C returns: 0 where nothing is refused.
pub fn number_of(answer: Result<(), Refusal>) -> u64
    ensures { result ≡ told_number answer }
{
    match answer {
        Ok(()) => 0,
        Err(f) => u64::from(f),
    }
}
