// Mending the list that is held: the mended list to standard output, eight bytes a code, and then the report.
ghost use Rattle.std.specs.Prelude.{◌*◌, ◌≤◌, length};

use crate::{Held, report, write_lines};
use std::io;

// Writes a list, eight bytes a word.
fn write_list(rt: &impl Print, list: &[u64]) -> io::Result<()>
    requires { length list.now ≤ 4096 }
{
    let mut bytes = [0u8; 32768];
    octets::write_words(list, list.len(), &mut bytes);
    rt.write_all(&bytes[..8 * list.len()])
}

// The same where it is asked for.
fn deliver(rt: &impl Print, list: &[u64], listed: bool) -> io::Result<()>
    requires { length list.now ≤ 4096 }
{
    if listed {
        write_list(rt, list)?;
    }
    Ok(())
}

// Mends a list, writes the mended one where it is asked for, and reports.
fn mend_words(rt: &impl Print, err: &impl Print, words: &[u64], listed: bool)
    requires { length words.now ≤ 4096 }
{
    let mut why = [0u64; 4096];
    let mut kept = [0u64; 4096];
    let mut list = [0u64; 4096];
    let mut changed = [0u64; 4096];
    let mut reasons = [0u64; 4096];
    let sound = judging::judge(words, &mut why, &mut kept);
    let z = mender::finish(
        words,
        &why,
        &mut kept,
        sound,
        &mut list,
        &mut changed,
        &mut reasons,
    );
    let count = z.count;
    let changes = z.changes;
    if deliver(rt, &list[..count], listed).is_ok() {
        report::tell_all(
            err,
            words,
            &why,
            &changed[..changes],
            &reasons[..changes],
            count as u64,
        );
    } else {
        let _ = err.write_all(b"cells: the list could not be written\n");
    }
}

// The same of the first words of the bytes.
fn mend_bytes(rt: &impl Print, err: &impl Print, head: &[u8], count: usize, listed: bool)
    requires { (8 * count ≤ length head.now) × (count ≤ 4096) }
{
    let mut words = [0u64; 4096];
    octets::read_words(head, count, &mut words);
    mend_words(rt, err, &words[..count], listed);
}

// Mends the list that is held. One that cannot be mended gets the line that it has where it is checked.
pub fn mend_held(rt: &impl Print, err: &impl Print, held: &Held, listed: bool) {
    let count = held.size / 8;
    if held.size % 8 == 0 && count <= 4096 {
        mend_bytes(rt, err, &held.head, count, listed);
    } else {
        let _ = write_lines(err, held, false);
    }
}
