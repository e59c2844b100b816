// Mending another yard's list of cells (document 02, 2026-10): what is dropped is judged first (crate judging), and
// then four whole children give way to their parent (crate merging).
#![tactic(auto)]

ghost use Rattle.std.specs.Prelude.{◌≡◌, [], map, ◌≤◌, length, take};
ghost use Rattle.frame.specs.Answers.{over};
ghost use Rattle.cells.specs.Means.Ranks.{rank};
ghost use Rattle.mending.specs.Mending.{judged, sound, mended, changes};
ghost use Rattle.mending.specs.Answers.{lists, mend_answer, mend_told, words_of, reasons_of, MendResult};

use frame::Refusal;
use mending::Written;
use merging::Counts;

// What is left to do when a list is judged: `why` has the reason of each of its words, and the first `count` of `kept`
// are the ranks of those that stay, in the order of the tree. The mended list goes over the front of `out`, and what
// was changed over the fronts of `changed` and `reasons`. `kept` is written over.
pub fn finish(
    words: &[u64],
    why: &[u64],
    kept: &mut [u64],
    count: usize,
    out: &mut [u64],
    changed: &mut [u64],
    reasons: &mut [u64],
) -> Counts
    requires { (length words.now ≤ length why.now) × (length words.now ≤ length out.old)
        × (length words.now ≤ length changed.old) × (length words.now ≤ length reasons.old)
        × (count ≤ length kept.old)
        × (take (length words.now) why.now ≡ reasons_of (judged words.now [] words.now))
        × (take count kept.old ≡ map rank (sound words.now)) }
    ensures { (result.count ≡ length (mended words.now)) × (result.changes ≡ length (changes words.now))
        × (out.new ≡ over (mended words.now) out.old)
        × (changed.new ≡ over (words_of (changes words.now)) changed.old)
        × (reasons.new ≡ over (reasons_of (changes words.now)) reasons.old) }
{
    let dropped = merging::put_dropped(words, why, changed, reasons);
    let z = merging::merge_all(kept, count, changed, reasons, dropped);
    merging::put_words(&kept[..z.count], out);
    z
}

// Where no list is too short or too long.
fn mend_all(input: &[u64], out: &mut [u64], words: &mut [u64], reasons: &mut [u64]) -> Written
    requires { (length input.now ≤ 4096) × (length input.now ≤ length out.old)
        × (length input.now ≤ length words.old) × (length input.now ≤ length reasons.old) }
    ensures { (mend_answer 0 result.count result.changes
        ≡ mend_answer 0 (length (mended input.now)) (length (changes input.now)))
        × (out.new ≡ over (mended input.now) out.old)
        × (words.new ≡ over (words_of (changes input.now)) words.old)
        × (reasons.new ≡ over (reasons_of (changes input.now)) reasons.old) }
{
    let mut why = [0u64; 4096];
    let mut kept = [0u64; 4096];
    let count = judging::judge(input, &mut why, &mut kept);
    let z = finish(input, &why, &mut kept, count, out, words, reasons);
    Written {
        count: z.count as u64,
        changes: z.changes as u64,
    }
}

// The mended list over the front of `out`, and what was changed over the fronts of `words` and `reasons`: each dropped
// word in the order of the input, 1 invalid, 3 equal to an earlier word, 4 inside another word; then each merge, as its
// parent with reason 5, the deepest first and rising within one degree.
pub fn mend(
    input: &[u64],
    out: &mut [u64],
    words: &mut [u64],
    reasons: &mut [u64],
) -> Result<Written, Refusal>
    ensures { MendResult input.now (lists out.old words.old reasons.old) (mend_told result)
        (lists out.new words.new reasons.new) }
{
    let n = input.len();
    if 4096 < n {
        return Err(Refusal::LongList);
    }
    if out.len() < n {
        return Err(Refusal::ShortList);
    }
    if words.len() < n {
        return Err(Refusal::ShortList);
    }
    if reasons.len() < n {
        return Err(Refusal::ShortList);
    }
    Ok(mend_all(input, out, words, reasons))
}
