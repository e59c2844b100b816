// What the console holds: a table of soundings (document 02, 2026-03, 2026-07 and 2026-08). Its four lists stand in the
// first places of those that the console is lent. talk keeps these: 81,921 places for readings and for owners, 20,481
// for counts and for sums, one more than the longest table needs, so that a list that is too long can be tried.
ghost use Rattle.std.specs.Prelude.{◌≡◌, ◌<◌, ◌≤◌};
ghost use Rattle.tables.specs.Tables.{places};

// A table that is open: its degree, and how many places of each list are its own.
#[derive(Clone, Copy)]
pub struct Held {
    pub degree: u64,
    pub readings: usize,
    pub owners: usize,
    pub counts: usize,
    pub sums: usize,
}

// The table, where one is open, and the lists that are lent for it, of any length.
#[derive(Drop)]
pub struct Table<'a> {
    pub held: Option<Held>,
    pub readings: &'a mut [i32],
    pub owners: &'a mut [u8],
    pub counts: &'a mut [u64],
    pub sums: &'a mut [u64],
}

// What an answer of many places shows: readings, owners, or of the triangles one degree up counts and sums.
#[derive(Clone, Copy)]
pub enum Shown {
    Readings,
    Owners,
    Coarse,
}

// What is still to be shown of an answer of many places, which is written part by part: the last places of the
// triangles of a degree.
#[derive(Clone, Copy)]
pub struct Rest {
    pub shown: Shown,
    pub degree: u64,
    pub count: usize,
}

// What is left to do where a line is answered: to show the rest of its answer, to save the table to the file of a name,
// or to open that of the file.
#[derive(Clone, Copy)]
pub enum Task<'a> {
    Show(Rest),
    Save(Held, &'a [u8]),
    Open(&'a [u8]),
}

// How many places a table of a degree has; 0 where no table has it.
pub fn places_of(degree: u64) -> usize
    ensures most { result ≤ 81920 }
    ensures table { degree ≤ 6 → result ≡ places degree }
    ensures no_table { 6 < degree → result ≡ 0 }
{
    if 6 < degree {
        return 0;
    }
    ordering::codes_of(degree) as usize
}

// How many triangles there are one degree up; 0 where no table has the degree.
pub fn parents_of(degree: u64) -> usize
    ensures { result ≤ 20480 }
{
    if 6 < degree {
        return 0;
    }
    refusing_sums::parents_of(degree) as usize
}
