// The program that ./sweep runs: files every direction of standard input at a degree, and writes a line for each to
// standard output (docs/SWEEP.md). Its arguments are DEGREE, `text` or `packed`, and `watch` or `quiet`. How it ends is
// told on standard error and, to ./sweep, by one digit to descriptor 3: its status.
//
// No contract can say what is read or written. Proved is that it returns, given that each read and write does, that it
// stays in its buffers, and that it uses the sweep by its contract.
#![tactic(auto)]

mod messages;
mod reading;
mod results;
mod tally;

ghost use Rattle.std.specs.Prelude.{◌≡◌, ◌≤◌, length, OnOk};

use lines::Text;
use reading::Piece;
use std::fs;
use std::fs::File;
use std::io::{Read, Write};
use std::rt::{Env, Files};
use tally::Tally;

// What ends a sweep before its input does: a read that failed, or a write.
#[derive(Clone, Copy)]
enum Failure {
    Unread,
    Lost,
}

// ---- filing

// The directions that are read and not filed yet, three numbers each.
#[derive(Drop)]
struct Batch {
    dirs: [i32; 3072],
    count: usize,
    ghost in_room: { count ≤ 1024 },
}

// A sweep under way: the direction so far; those that wait; room for their codes, which is made once; the lines so far;
// and what has been filed.
#[derive(Drop)]
struct Sweep {
    degree: u64,
    piece: Piece,
    batch: Batch,
    codes: [u64; 1024],
    out: Text<65536>,
    tally: Tally,
}

impl Sweep {
    fn new(degree: u64, packed: bool) -> Self {
        Sweep {
            degree,
            piece: Piece::new(packed),
            batch: Batch {
                dirs: [0; 3072],
                count: 0,
            },
            codes: [0; 1024],
            out: Text::new(),
            tally: Tally::default(),
        }
    }

    // Writes the lines so far.
    fn flush(&mut self, rt: &impl Print) -> Result<(), Failure>
        ensures empty { length self.new.out ≡ 0 }
        ensures rest { self.new.batch.count ≡ self.old.batch.count }
    {
        let written = rt.write_all(self.out.as_bytes());
        self.out.clear();
        written.map_err(|_| Failure::Lost)
    }

    // The same where there may be no room for those of 1024 directions, and of one that is not read.
    fn make_room(&mut self, rt: &impl Print) -> Result<(), Failure>
        ensures room { length self.new.out ≤ 35000 }
        ensures rest { self.new.batch.count ≡ self.old.batch.count }
    {
        if self.out.len() <= 35000 {
            return Ok(());
        }
        self.flush(rt)
    }

    // Files the directions that are read. (The call as a whole is not refused: the degree is none that is.)
    fn file(&mut self, rt: &impl Print) -> Result<(), Failure>
        ensures room { length self.new.out ≤ 65000 }
        ensures filed { OnOk result (self.new.batch.count ≡ 0) }
    {
        self.make_room(rt)?;
        if self.batch.count == 0 {
            return Ok(());
        }
        let batch = &self.batch;
        let dirs = &batch.dirs[..3 * batch.count];
        let codes = &mut self.codes[..];
        let codes = &mut codes[..batch.count];
        let refused = sweeper::sweep(self.degree, dirs, codes).unwrap_or(None);
        results::put_all(self.degree, dirs, codes, &mut self.out);
        self.tally.add_swept(batch.count as u64, refused);
        self.batch.count = 0;
        Ok(())
    }

    // One direction more.
    fn add(&mut self, rt: &impl Print, direction: [i32; 3]) -> Result<(), Failure> {
        if self.batch.count == 1024 {
            self.file(rt)?;
        }
        let [x, y, z] = direction;
        let k = 3 * self.batch.count;
        self.batch.dirs[k] = x;
        self.batch.dirs[k + 1] = y;
        self.batch.dirs[k + 2] = z;
        self.batch.count += 1;
        Ok(())
    }

    // Passes over a direction that was not read. (As many as are filed at once are filed before it by themselves, and
    // there is room anew for its line: so each write has the bytes that it always had.)
    fn pass_over(&mut self, rt: &impl Print) -> Result<(), Failure> {
        if self.batch.count == 1024 {
            self.file(rt)?;
        }
        self.file(rt)?;
        results::put_not_read(&mut self.out);
        self.tally.add_unread();
        Ok(())
    }

    // A direction has ended.
    fn end(&mut self, rt: &impl Print) -> Result<(), Failure> {
        match self.piece.end() {
            Some(direction) => self.add(rt, direction),
            None => self.pass_over(rt),
        }
    }

    // Bytes of lines, line by line.
    fn take_lines(&mut self, rt: &impl Print, chunk: &[u8]) -> Result<(), Failure> {
        for part in chunk.split_inclusive(|b| *b == b'\n') {
            if self.piece.take_line(part) {
                self.end(rt)?;
            }
        }
        Ok(())
    }

    // Packed bytes: what the direction so far lacks, and then twelve by twelve.
    fn take_packed(&mut self, rt: &impl Print, chunk: &[u8]) -> Result<(), Failure> {
        let n = chunk.len().min(self.piece.missing());
        let (first, others) = chunk.split_at(n);
        if self.piece.take_packed(first) {
            self.end(rt)?;
        }
        for part in others.chunks(12) {
            if self.piece.take_packed(part) {
                self.end(rt)?;
            }
        }
        Ok(())
    }

    // The bytes that one read brought.
    fn take(&mut self, rt: &impl Print, chunk: &[u8]) -> Result<(), Failure> {
        if self.piece.packed {
            self.take_packed(rt, chunk)?;
        } else {
            self.take_lines(rt, chunk)?;
        }
        self.file(rt)?;
        self.flush(rt)
    }

    // The input has ended: maybe with a last line that has no end, or a direction cut short.
    fn finish(&mut self, rt: &impl Print) -> Result<(), Failure> {
        if !self.piece.is_empty() {
            self.end(rt)?;
        }
        self.file(rt)?;
        self.flush(rt)
    }

    // Files read after read, to the end of the input.
    fn file_all(
        &mut self,
        rt: &impl Print,
        err: &impl Print,
        input: &mut impl Read,
        watch: bool,
    ) -> Result<(), Failure> {
        let mut chunk = [0u8; 65536];
        // No input lasts for so many.
        for _ in 0..u64::MAX {
            let got = input.read(&mut chunk).map_err(|_| Failure::Unread)?;
            if got == 0 {
                return self.finish(rt);
            }
            self.take(rt, &chunk[..got])?;
            if watch {
                messages::tell_progress(err, self.tally);
            }
        }
        Err(Failure::Unread)
    }
}

// ---- the program

// Says on standard error what the sweep came to, or what failed. The status.
fn tell(err: &impl Print, watch: bool, ended: Result<(), Failure>, tally: Tally) -> u8
    ensures { result ≤ 3 }
{
    if watch {
        messages::clear(err);
    }
    match ended {
        Ok(()) => messages::close(err, tally),
        Err(Failure::Lost) => messages::say(err, b"sweep: the codes could not be written\n", 3),
        Err(Failure::Unread) => messages::say(err, b"sweep: the directions could not be read\n", 3),
    }
}

// The degree of the first argument. None is longer than the buffer: the system takes none that is.
fn degree_asked(rt: &impl Env) -> Option<u64> {
    let mut word = [0u8; 131072];
    let n = rt.arg(1, &mut word).ok()?;
    lines::read_number(&word[..n])
}

// Whether argument i is this word.
fn is_asked(rt: &impl Env, i: usize, word: &[u8]) -> bool {
    let mut given = [0u8; 4096];
    let n = rt.arg(i, &mut given).unwrap_or(0);
    &given[..n] == word
}

// Files the directions of standard input as the arguments ask for. The status.
fn carry_out(rt: &(impl Input + Print + Env), err: &impl Print) -> u8
    ensures { result ≤ 3 }
{
    let Some(degree) = degree_asked(rt) else {
        return messages::say(err, b"sweep: write it as ./sweep [--packed] DEGREE\n", 2);
    };
    if 24 < degree {
        return messages::refuse_degree(err);
    }
    let watch = is_asked(rt, 3, b"watch");
    let mut sweep = Sweep::new(degree, is_asked(rt, 2, b"packed"));
    let ended = sweep.file_all(rt, err, &mut rt.reader(), watch);
    tell(err, watch, ended, sweep.tally)
}

// Descriptor 3 by a name, since the standard library opens none by its number.
const STATUS: &str = "/proc/self/fd/3";

// Whether descriptor 3 is one to write to, which its name's permissions say.
fn takes_status(rt: &impl Files) -> bool {
    match fs::symlink_metadata(rt, STATUS) {
        Ok(named) => !named.permissions().readonly(),
        Err(_) => false,
    }
}

// Writes the status after what stands there. (It is opened to be read too: to open a pipe that nobody reads for writing
// alone is to wait.)
fn write_status(rt: &impl Files, status: &[u8]) {
    if takes_status(rt) {
        if let Ok(mut file) = File::options().read(true).append(true).open(rt, STATUS) {
            let _ = file.write_all(status);
        }
    }
}

// The program. Its messages go to `err`.
pub fn file_directions(rt: &(impl Input + Print + Env + Files), err: &impl Print) {
    let status = carry_out(rt, err);
    write_status(rt, &[b'0' + status]);
}
