// Texts that the programs share: the calls of the console and their forms, the reasons of refusals and those of a cell
// list, and codes as they are shown.
#![tactic(auto)]

ghost use Rattle.std.specs.Prelude.{◌+◌, ◌≤◌, length};

use lines::{Text, Words};

// A call of the console. The last four have no form yet: no word names them.
#[derive(Clone, Copy, PartialEq, Eq)]
pub enum Call {
    Help,
    Check,
    Parent,
    CheckName,
    NameExact,
    NameT,
    NameDrawn,
    NameBits,
    Child,
    Cross,
    Name,
    Exact,
    T,
    Drawn,
    Bits,
    Weights,
    NameWeights,
    Ring,
    List,
    File,
    Back,
    Sweep,
    Table,
    Take,
    Clear,
    Give,
    Set,
    Get,
    Readings,
    Owners,
    Coarse,
    WorkOut,
    Counts,
    Sums,
    CheckCells,
    MendCells,
    Small,
    Large,
    CheckSmall,
    CrossSmall,
    FileSmall,
    Opposite,
    OppositeName,
    Paper,
    PaperName,
    FromPaper,
    FromPaperVertex,
    EdgeMark,
    Mark,
    Save,
    Open,
}

// How each call is written.
const CALLS: [(Call, &str); 47] = [
    (Call::Help, "help"),
    (Call::Check, "check CODE"),
    (Call::Parent, "parent CODE"),
    (Call::CheckName, "check-name NAME"),
    (Call::NameExact, "name-exact NAME"),
    (Call::NameT, "name-t NAME"),
    (Call::NameDrawn, "name-drawn NAME"),
    (Call::NameBits, "name-bits NAME"),
    (Call::Child, "child CODE DIGIT"),
    (Call::Cross, "cross CODE EDGE"),
    (Call::Name, "name CODE CORNER"),
    (Call::Exact, "exact CODE CORNER"),
    (Call::T, "t CODE CORNER"),
    (Call::Drawn, "drawn CODE CORNER"),
    (Call::Bits, "bits CODE CORNER"),
    (Call::Weights, "weights CODE CORNER [PLACES]"),
    (Call::NameWeights, "name-weights NAME [PLACES]"),
    (Call::Ring, "ring NAME [PLACES]"),
    (Call::List, "list DEGREE X Y Z [PLACES]"),
    (Call::File, "file DEGREE X Y Z"),
    (Call::Back, "back DEGREE WEIGHTS"),
    (Call::Sweep, "sweep DEGREE PLACES [NUMBER].."),
    (Call::Table, "table DEGREE [LENGTH FILL [PLACE VALUE]..]"),
    (Call::Take, "take DESK CODE"),
    (Call::Clear, "clear DESK CODE"),
    (Call::Give, "give DESK CODE"),
    (Call::Set, "set DESK CODE MM"),
    (Call::Get, "get CODE"),
    (Call::Readings, "readings"),
    (Call::Owners, "owners [LENGTH FILL [PLACE OWNER]..]"),
    (Call::Coarse, "coarse [CODE]"),
    (Call::WorkOut, "work-out"),
    (Call::Counts, "counts LENGTH FILL [PLACE N].."),
    (Call::Sums, "sums LENGTH FILL [PLACE N].."),
    (Call::CheckCells, "check-cells [CODE].."),
    (Call::MendCells, "mend-cells MENDED WORDS REASONS [CODE].."),
    (Call::Small, "small CODE"),
    (Call::Large, "large SMALL"),
    (Call::CheckSmall, "check-small SMALL"),
    (Call::CrossSmall, "cross-small SMALL EDGE"),
    (Call::FileSmall, "file-small DEGREE X Y Z"),
    (Call::Opposite, "opposite CODE"),
    (Call::OppositeName, "opposite-name NAME"),
    (Call::Paper, "paper CODE [PLACES]"),
    (Call::PaperName, "paper-name NAME [PLACES]"),
    (Call::FromPaper, "from-paper DIGITS"),
    (Call::FromPaperVertex, "from-paper-vertex DIGITS"),
];

// Document 01, 'Refusal numbers': when each is given, from 1.
const REASONS: [&str; 11] = [
    "a degree, as field or argument, is above 24",
    "a is 0, 6 or 7",
    "a digit beyond the degree is not 0",
    "the four zero bits are not zero, or the corner number does not fit the kind of word",
    "an edge or corner argument is not 1 to 3, or a child digit is not 0 to 3",
    "parent of degree 0, or child of degree 24",
    "the direction is (0, 0, 0)",
    "a direction coordinate lies outside -1,000,000,000 to 1,000,000,000",
    "a lent list is too short: 12 for weights, 6 for triangles",
    "a word passes 1 to 4 as a corner name and is not the canonical one",
    "no corner of the degree has the twelve weights",
];

// Document 02: the same, from 20.
const REASONS_FROM_20: [&str; 14] = [
    "wrong degree",
    "reading out of range",
    "the list's length isn't 20*4^degree",
    "the list holds a number that is neither a reading nor -1",
    "not a desk",
    "owner list malformed (wrong length or another number)",
    "owned by the other desk",
    "not owned",
    "a list of counts or sums has the wrong length",
    "the stored count or sum of the parent concerned differs from its children's readings",
    "a degree, as field or argument, is 12 to 24",
    "the last bit is set",
    "a list has more than 4,096 words",
    "a code the paper's text doesn't allow",
];

// Document 02, 2026-09: the reasons of an offending place, from 1.
const OFFENCES: [&str; 4] = [
    "invalid",
    "less than the word before",
    "equal to the word before",
    "inside an earlier one",
];

// ---- what is told

// The call that a word names.
pub fn call_named(word: &[u8]) -> Option<Call> {
    for (call, form) in &CALLS {
        if Words::of(form.as_bytes()).next() == Some(word) {
            return Some(*call);
        }
    }
    None
}

// A row of at most 100 bytes.
fn put_row<const N: usize>(row: &str, out: &mut Text<N>)
    requires { length out.old + 100 ≤ N }
    ensures { length out.new ≤ length out.old + 100 }
{
    if row.len() <= 100 {
        out.push_bytes(row.as_bytes());
    }
}

// The row of a number, where the first has the number `from`.
fn put_numbered<const N: usize>(rows: &[&str], from: u64, number: u64, out: &mut Text<N>)
    requires { length out.old + 100 ≤ N }
    ensures { length out.new ≤ length out.old + 100 }
{
    let Some(i) = number.checked_sub(from) else {
        return;
    };
    if let Some(row) = rows.get(i as usize) {
        put_row(row, out);
    }
}

// The form of a call.
pub fn put_form<const N: usize>(call: Call, out: &mut Text<N>)
    requires { length out.old + 100 ≤ N }
    ensures { length out.new ≤ length out.old + 100 }
{
    if let Some((_, form)) = CALLS.iter().find(|(other, _)| *other == call) {
        put_row(form, out);
    }
}

// The reason of a refusal, by its number.
pub fn put_reason<const N: usize>(refusal: u64, out: &mut Text<N>)
    requires { length out.old + 100 ≤ N }
    ensures { length out.new ≤ length out.old + 100 }
{
    if refusal < 20 {
        put_numbered(&REASONS, 1, refusal, out);
    } else {
        put_numbered(&REASONS_FROM_20, 20, refusal, out);
    }
}

// The reason of an offending place of a cell list, by its number.
pub fn put_offence<const N: usize>(reason: u64, out: &mut Text<N>)
    requires { length out.old + 100 ≤ N }
    ensures { length out.new ≤ length out.old + 100 }
{
    put_numbered(&OFFENCES, 1, reason, out);
}

// ---- codes

// A code as document 01 writes it. A word with a degree above 24 is none.
pub fn put_digits<const N: usize>(w: u64, out: &mut Text<N>)
    requires { length out.old + 27 ≤ N }
    ensures { length out.new ≤ length out.old + 27 }
{
    if words::degree_of(w) <= 24 {
        out.push_code(w);
    }
}

// A code, and its word.
pub fn put_code<const N: usize>(w: u64, out: &mut Text<N>)
    requires { length out.old + 46 ≤ N }
    ensures { length out.new ≤ length out.old + 46 }
{
    put_digits(w, out);
    out.push(b' ');
    out.push_word(w);
}
