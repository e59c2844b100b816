// The program that ./cells runs: reads a list of cells from standard input, to its end, and writes its line to standard
// output (document 02, 2026-09; docs/CELLS.md). With the argument -v a second line says it in words. With the argument
// mend it mends the list (2026-10): the mended list goes to standard output, and a report to standard error; with -n
// after it the report alone. Where a read or a write fails, standard error says so.
//
// No contract can say what is read or written. Proved is that it returns, given that each read and write does, that it
// stays in its buffers, and that it uses `verdicts`, `judging` and `mender` by their contracts.
#![tactic(auto)]

mod mends;
mod report;
mod telling;

use lines::Text;
use std::io;
use std::io::Read;
use std::rt::Env;

// What is held of a file of any length, as `verdicts` takes it in.
#[derive(Drop)]
struct Held {
    head: [u8; 32768],
    size: usize,
}

impl Held {
    fn new() -> Self {
        Held {
            head: [0; 32768],
            size: 0,
        }
    }

    fn take_in(&mut self, next: &[u8]) {
        let size = self.size;
        self.size = verdicts::take_in(next, &mut self.head, size);
    }
}

// Reads standard input to its end, of whatever length. None where a read fails.
fn read_all(input: &mut impl Read) -> Option<Held> {
    let mut chunk = [0u8; 65536];
    let mut held = Held::new();
    // No input lasts for so many.
    for _ in 0..u64::MAX {
        let got = input.read(&mut chunk).ok()?;
        if got == 0 {
            return Some(held);
        }
        held.take_in(&chunk[..got]);
    }
    None
}

// The line of what is held, and where it is asked for the second line.
fn told(held: &Held, verbose: bool) -> Text<600> {
    let mut line = [0; 55];
    let n = verdicts::put_line(&held.head, held.size, &mut line);
    let mut out = Text::new();
    out.push_bytes(&line[..n]);
    if verbose {
        telling::put_more(held, &mut out);
    }
    out
}

fn write_lines(to: &impl Print, held: &Held, verbose: bool) -> io::Result<()> {
    to.write_all(told(held, verbose).as_bytes())
}

// Whether argument i is this word.
fn is_asked(rt: &impl Env, i: usize, word: &[u8]) -> bool {
    let mut given = [0u8; 4096];
    let n = rt.arg(i, &mut given).unwrap_or(0);
    &given[..n] == word
}

// Checks the list that is held, or says that its lines were lost.
fn check_held(rt: &(impl Print + Env), err: &impl Print, held: &Held) {
    if write_lines(rt, held, is_asked(rt, 1, b"-v")).is_err() {
        let _ = err.write_all(b"cells: the line could not be written\n");
    }
}

// Checks or mends the list that is held, as the arguments ask for.
fn answer(rt: &(impl Print + Env), err: &impl Print, held: &Held) {
    if is_asked(rt, 1, b"mend") {
        mends::mend_held(rt, err, held, !is_asked(rt, 2, b"-n"));
    } else {
        check_held(rt, err, held);
    }
}

// The program. Its messages and its report go to `err`.
pub fn answer_input(rt: &(impl Input + Print + Env), err: &impl Print) {
    match read_all(&mut rt.reader()) {
        Some(held) => answer(rt, err, &held),
        None => {
            let _ = err.write_all(b"cells: the list could not be read\n");
        }
    }
}
