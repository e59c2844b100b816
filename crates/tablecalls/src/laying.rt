// Laying a list of numbers: what a line says of it (table, owners, counts, sums), and then the numbers themselves.
ghost use Rattle.std.specs.Prelude.{◌≡◌, ◌<◌, ◌≤◌, length, [], IfSome};
ghost use Rattle.tables.specs.Tables.{none, places};

use crate::held;
use lines::Words;
use replies::arguments;

// What a place of a list holds, as a line says it.
pub trait Entry: Copy {
    fn read(words: &mut Words<'_>) -> Option<Self>;
}

// A reading.
impl Entry for i32 {
    fn read(words: &mut Words<'_>) -> Option<i32> {
        arguments::signed(words)
    }
}

// An owner.
impl Entry for u8 {
    fn read(words: &mut Words<'_>) -> Option<u8> {
        u8::try_from(arguments::number(words)?).ok()
    }
}

// A count or a sum.
impl Entry for u64 {
    fn read(words: &mut Words<'_>) -> Option<u64> {
        arguments::number(words)
    }
}

// A place with what it holds.
fn pair<T: Entry>(words: &mut Words<'_>) -> Option<(u64, T)> {
    let place = arguments::number(words)?;
    Some((place, T::read(words)?))
}

// Whether the words are pairs with a place below n.
fn are_pairs<T: Entry>(mut words: Words<'_>, n: usize) -> bool {
    // A line of at most 1000 bytes has fewer pairs.
    for _ in 0..1000 {
        if words.is_empty() {
            return true;
        }
        match pair::<T>(&mut words) {
            Some((place, _)) if place < n as u64 => {}
            _ => return false,
        }
    }
    false
}

// What a line says of a list: its length, what all its places hold, and the pairs that say otherwise, which end the
// line.
#[derive(Clone, Copy)]
pub struct Listing<'a, T: Entry> {
    pub length: usize,
    pub entry: T,
    pub pairs: &'a [u8],
}

impl<'a, T: Entry> Listing<'a, T> {
    // Of a list with room for so many places.
    pub fn read(mut words: Words<'a>, room: usize) -> Option<Self>
        ensures { IfSome result (λ list. list.length ≤ room) }
    {
        let length = arguments::room(&mut words, room)?;
        let entry = T::read(&mut words)?;
        let pairs = words.rest();
        if !are_pairs::<T>(words, length) {
            return None;
        }
        Some(Listing {
            length,
            entry,
            pairs,
        })
    }

    // Of a list that holds the same in so many places.
    pub fn filled(length: usize, entry: T) -> Self
        ensures { (result.length ≡ length) × (result.entry ≡ entry) × (result.pairs.now ≡ []) }
    {
        Listing {
            length,
            entry,
            pairs: b"",
        }
    }

    // Lays it; of two pairs for one place the later holds. Past the end of the list nothing is laid.
    pub fn lay(&self, list: &mut [T]) {
        // (`fill` asks for a clone that cannot fail, which T does not say.)
        for place in list.iter_mut().take(self.length) {
            *place = self.entry;
        }
        let mut words = Words::of(self.pairs);
        for _ in 0..1000 {
            let Some((place, entry)) = pair(&mut words) else {
                return;
            };
            if let Some(held) = list.get_mut(place as usize) {
                *held = entry;
            }
        }
    }
}

// A fresh list of readings.
pub fn fresh(degree: u64) -> Listing<'static, i32>
    ensures most { result.length ≤ 81920 }
    ensures table { degree ≤ 6 → result.length ≡ places degree }
    ensures no_table { 6 < degree → result.length ≡ 0 }
    ensures no_readings { (result.entry ≡ none) × (result.pairs.now ≡ []) }
{
    Listing::filled(held::places_of(degree), -1)
}
