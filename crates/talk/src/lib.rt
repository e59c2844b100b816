// The talk at the console: reads lines from standard input, and writes the answer of each to standard output, until the
// input ends. Where a read or a write fails it stops there, and says so on standard error. It keeps the table that the
// console holds.
//
// No contract can say what is read or written. Proved is that it returns, given that each read and write does, that it
// stays in its buffers, and that it uses the console by its contract.
#![tactic(auto)]

ghost use Rattle.std.specs.Prelude.{◌≡◌, ◌≤◌, length};

use console::{Rest, Table};
use lines::Text;
use std::io::Read;
use std::rt::Files;

// What ends the talk before its input does: a read that failed, or a write.
#[derive(Clone, Copy)]
enum Failure {
    Unread,
    Lost,
}

// The line so far, of which at most 1001 bytes are kept: one with more than 1000 is too long. The table. The answers so
// far.
#[derive(Drop)]
struct Talk<'a> {
    line: Text<1001>,
    table: Table<'a>,
    answers: Text<65536>,
}

impl<'a> Talk<'a> {
    fn new(table: Table<'a>) -> Self {
        Talk {
            line: Text::new(),
            table,
            answers: Text::new(),
        }
    }

    // Writes the answers so far.
    fn flush(&mut self, rt: &impl Print) -> Result<(), Failure>
        ensures { length self.new.answers ≡ 0 }
    {
        let written = rt.write_all(self.answers.as_bytes());
        self.answers.clear();
        written.map_err(|_| Failure::Lost)
    }

    // The same where there may be no room for one more.
    fn make_room(&mut self, rt: &impl Print) -> Result<(), Failure>
        ensures { length self.new.answers ≤ 49000 }
    {
        if self.answers.len() <= 49000 {
            return Ok(());
        }
        self.flush(rt)
    }

    // The answer of the line, or its first part; and the rest.
    fn answer(&mut self, rt: &impl Files) -> Option<Rest>
        requires { length self.old.answers ≤ 49000 }
    {
        let line = self.line.as_bytes();
        let answers = &mut self.answers;
        if 1000 < line.len() {
            console::too_long(answers);
            return None;
        }
        let task = console::answer(line, &mut self.table, answers)?;
        filecalls::finish(rt, task, &mut self.table, answers)
    }

    // The rest of an answer.
    fn put_rest(&mut self, rt: &impl Print, all: Option<Rest>) -> Result<(), Failure> {
        let mut rest = all;
        while let Some(left) = rest {
            self.make_room(rt)?;
            rest = console::go_on(left, &self.table, &mut self.answers);
        }
        Ok(())
    }

    // The line has ended: its answer, and a line end after it.
    fn end_line(&mut self, rt: &(impl Print + Files)) -> Result<(), Failure> {
        // A line that is read is answered, also where no answer can be written any more.
        let room = self.make_room(rt);
        let rest = self.answer(rt);
        room?;
        self.put_rest(rt, rest)?;
        self.make_room(rt)?;
        self.answers.push(b'\n');
        self.line.clear();
        Ok(())
    }

    // The bytes that one read brought.
    fn take(&mut self, rt: &(impl Print + Files), chunk: &[u8]) -> Result<(), Failure> {
        for b in chunk {
            if *b == b'\n' {
                self.end_line(rt)?;
            } else if self.line.len() <= 1000 {
                self.line.push(*b);
            }
        }
        self.flush(rt)
    }

    // The input has ended: maybe with a last line that has no end.
    fn finish(&mut self, rt: &(impl Print + Files)) -> Result<(), Failure> {
        if self.line.len() == 0 {
            return Ok(());
        }
        self.end_line(rt)?;
        self.flush(rt)
    }

    // Answers read after read, to the end of the input.
    fn answer_all(
        &mut self,
        rt: &(impl Print + Files),
        input: &mut impl Read,
    ) -> Result<(), Failure> {
        let mut chunk = [0u8; 65536];
        // No input lasts for so many.
        for _ in 0..u64::MAX {
            let got = input.read(&mut chunk).map_err(|_| Failure::Unread)?;
            if got == 0 {
                return self.finish(rt);
            }
            self.take(rt, &chunk[..got])?;
        }
        Err(Failure::Unread)
    }
}

// Answers the lines of standard input. What failed is said to `err`. (Each list has one place more than the longest
// table needs, so that one that is too long can be tried.)
pub fn answer_lines(rt: &(impl Input + Print + Files), err: &impl Print) {
    let mut readings = [0i32; 81921];
    let mut owners = [0u8; 81921];
    let mut counts = [0u64; 20481];
    let mut sums = [0u64; 20481];
    let mut talk = Talk::new(Table {
        held: None,
        readings: &mut readings,
        owners: &mut owners,
        counts: &mut counts,
        sums: &mut sums,
    });
    let ended = talk.answer_all(rt, &mut rt.reader());
    let _ = match ended {
        Ok(()) => Ok(()),
        Err(Failure::Unread) => err.write_all(b"plot: the calls could not be read\n"),
        Err(Failure::Lost) => err.write_all(b"plot: the answers could not be written\n"),
    };
}
