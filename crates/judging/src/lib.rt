// Judging the words of another yard's list of cells (document 02, 2026-10): which are dropped, and why. The words are
// gone through in the order of the tree, and of equal ones in the order of the list: a code that has the key of the one
// before is a repeat, and one below the end of the last that was kept lies inside that one.
#![tactic(auto)]

ghost use Rattle.std.specs.Prelude.{◌≡◌, [], map, ◌%◌, ◌^◌, ◌≤◌, ◌<◌, length, take};
ghost use Rattle.cells.specs.Means.Ranks.{rank};
ghost use Rattle.mending.specs.Mending.{judged, sound};
ghost use Rattle.mending.specs.Answers.{reasons_of};
ghost use Rattle.judging.specs.Means.Keys.{key, end_of, code_places, Numbered};
ghost use Rattle.judging.specs.Means.Turns.{why_next, InTurn, Nested, Judged, Kept, SmallKeys};

use words::TriangleCode;

// What a word is sorted by: the rank of a code, 0 for a word that is none.
fn key_of(w: u64) -> u64
    ensures { result ≡ key w }
{
    if TriangleCode(w).check().is_err() {
        return 0;
    }
    let own = cells::reach_of(w);
    own.rank
}

// The keys of a list, the places of its codes, rising, and 1 as the reason of each word that is none: over the fronts
// of three lists. How many codes there are.
fn number_words(words: &[u64], keys: &mut [u64], places: &mut [u64], why: &mut [u64]) -> usize
    requires { (length words.now ≤ length keys.old) × (length words.now ≤ length places.old)
        × (length words.now ≤ length why.old) }
    ensures { Numbered words.now keys.new places.new why.new result }
{
    let mut codes = 0;
    for (i, &w) in words.iter().enumerate() {
        let k = key_of(w);
        keys[i] = k;
        if k == 0 {
            why[i] = 1;
        } else {
            places[codes] = i as u64;
            codes += 1;
        }
    }
    codes
}

// The end of the code with this key.
fn end_of(key: u64) -> u64
    requires { (key < 2 ^ 59) × (key % 64 ≤ 24) }
    ensures { result ≡ end_of key }
{
    let degree = key % 64;
    key - degree + words::power(54 - 2 * degree)
}

// Why a code is dropped, by the key before it and the end of the last one kept.
fn why_next(last: u64, end: u64, key: u64) -> u64
    ensures { result ≡ why_next last end key }
{
    if key == last {
        return 3;
    }
    if key < end {
        return 4;
    }
    0
}

// The reason of each code, at its place; and the keys of those that are kept, over the front of a list. How many these
// are.
fn judge_each(keys: &[u64], places: &[u64], why: &mut [u64], kept: &mut [u64]) -> usize
    requires { InTurn keys.now places.now × Nested keys.now × SmallKeys keys.now
        × (length keys.now ≤ length why.old) × (length places.now ≤ length kept.old) }
    ensures { (result ≤ length places.now) × Judged keys.now why.old why.new
        × Kept keys.now (take result kept.new) }
{
    let mut last = 0;
    let mut end = 0;
    let mut count = 0;
    for &place in places {
        let p = place as usize;
        let k = keys[p];
        let f = why_next(last, end, k);
        why[p] = f;
        last = k;
        if f == 0 {
            kept[count] = k;
            count += 1;
            end = end_of(k);
        }
    }
    count
}

// The same of codes whose places are yet to be sorted. `room` is written over.
fn judge_codes(
    keys: &[u64],
    places: &mut [u64],
    room: &mut [u64],
    why: &mut [u64],
    kept: &mut [u64],
) -> usize
    requires { (places.old ≡ code_places 0 keys.now) × Nested keys.now × SmallKeys keys.now
        × (length places.old ≤ length room.old) × (length keys.now ≤ length why.old)
        × (length places.old ≤ length kept.old) }
    ensures { (result ≤ length places.old) × Judged keys.now why.old why.new
        × Kept keys.now (take result kept.new) }
{
    sorting::sort(keys, places, room);
    judge_each(keys, places, why, kept)
}

// Judges a list: the reason of each of its words, 0 for one that is kept, over the front of `why`; and the ranks of
// those that are kept, in the order of the tree, over the front of `kept`. How many these are.
pub fn judge(words: &[u64], why: &mut [u64], kept: &mut [u64]) -> usize
    requires { (length words.now ≤ 4096) × (length words.now ≤ length why.old)
        × (length words.now ≤ length kept.old) }
    ensures { (result ≤ length words.now)
        × (take (length words.now) why.new
        ≡ reasons_of (judged words.now [] words.now))
        × (take result kept.new ≡ map rank (sound words.now)) }
{
    let mut keys = [0u64; 4096];
    let mut places = [0u64; 4096];
    let mut room = [0u64; 4096];
    let n = words.len();
    let codes = number_words(words, &mut keys, &mut places, why);
    judge_codes(&keys[..n], &mut places[..codes], &mut room, why, kept)
}
