// The console's calls on the file of a table (docs/CONSOLE.md): save, which writes the one that is held, and open,
// which reads another. What stands in the file is tablecalls' to say (files).
//
// No contract can say what is read or written. Proved is that both return, given that each read and write does, that
// they stay in their buffers, and that they use tablecalls by its contracts.
#![tactic(auto)]

ghost use Rattle.std.specs.Prelude.{◌+◌, ◌≤◌, length, IfOk, IfSome};
ghost use Rattle.tablecalls.specs.Room.{HeldInRoom, RestInTable, SameLists, TaskInRoom};

use lines::Text;
use std::fs::{File, OpenFile};
use std::io::{Read, Write};
use std::rt::Files;
use std::{fs, io, str};
use tablecalls::held::{Held, Rest, Table, Task};
use tablecalls::{desks, files};

// Room for the longest file and one byte more, so that a longer one is told.
fn room() -> [u8; 1310729] {
    [0; 1310729]
}

// ---- save

// Writes all bytes to a file, and to the disk, and closes it.
fn write_closing(mut file: impl Write + OpenFile + Drop, bytes: &[u8]) -> io::Result<()> {
    let written = file.write_all(bytes);
    file.sync_all()?;
    written
}

// The same, and gives the file another name, whose file it replaces.
fn write_renaming(
    rt: &impl Files,
    file: impl Write + OpenFile + Drop,
    new: &str,
    bytes: &[u8],
    name: &str,
) -> io::Result<()> {
    write_closing(file, bytes)?;
    fs::rename(rt, new, name)
}

// Writes a file under a name that no file has, and then gives it the other one. Where that fails nothing of it is left.
fn write_as(rt: &impl Files, new: &str, bytes: &[u8], name: &str) -> io::Result<()> {
    let file = File::options().write(true).create_new(true).open(rt, new)?;
    let written = write_renaming(rt, file, new, bytes, name);
    if written.is_err() {
        let _ = fs::remove_file(rt, new);
    }
    written
}

// Writes a file by way of one with .new after its name; until all is written, what stood there stays. (The standard
// library takes a name that is UTF-8, and no other. A line has at most 1000 bytes, and so has a name.)
fn write_file(rt: &impl Files, name: &[u8], bytes: &[u8]) -> Option<()> {
    if 1000 < name.len() {
        return None;
    }
    let mut new: Text<1004> = Text::new();
    new.push_bytes(name);
    new.push_bytes(b".new");
    let new = str::from_utf8(new.as_bytes()).ok()?;
    let name = str::from_utf8(name).ok()?;
    write_as(rt, new, bytes, name).ok()
}

// The same by way of a buffer for its bytes.
fn save_by<const N: usize>(
    rt: &impl Files,
    held: Held,
    name: &[u8],
    table: &Table<'_>,
    bytes: &mut [u8],
    out: &mut Text<N>,
)
    requires { (1310728 ≤ length bytes.old) × (length out.old + 200 ≤ N) }
    ensures { length out.new ≤ length out.old + 200 }
{
    let n = files::put_file(held, table.readings, table.owners, bytes);
    match write_file(rt, name, &bytes[..n]) {
        Some(()) => out.push_bytes(b"ok"),
        None => out.push_bytes(b"error: the file could not be written"),
    }
}

// A table that is not refused.
#[inline(never)]
fn save_sound<const N: usize>(
    rt: &impl Files,
    held: Held,
    name: &[u8],
    table: &Table<'_>,
    out: &mut Text<N>,
)
    requires { length out.old + 200 ≤ N }
    ensures { length out.new ≤ length out.old + 200 }
{
    let mut bytes = room();
    save_by(rt, held, name, table, &mut bytes, out);
}

// The table that is held to the file of this name.
pub fn save<const N: usize>(
    rt: &impl Files,
    held: Held,
    name: &[u8],
    table: &Table<'_>,
    out: &mut Text<N>,
)
    requires { length out.old + 200 ≤ N }
    ensures { length out.new ≤ length out.old + 200 }
{
    match files::refuse_save(held, table.readings, table.owners) {
        Ok(()) => save_sound(rt, held, name, table, out),
        Err(f) => desks::put_refused(f, out),
    }
}

// ---- open

// Reads until the file ends or the buffer is full: how many bytes there are.
fn read_full(file: &mut impl Read, bytes: &mut [u8]) -> io::Result<usize>
    ensures { IfOk result (λ n. n ≤ length bytes.old) }
{
    let mut n = 0;
    // A read brings any number of bytes, so no for counts them; and the library's read_to_end allocates.
    while n < bytes.len() {
        let got = file.read(&mut bytes[n..])?;
        if got == 0 {
            return Ok(n);
        }
        n += got;
    }
    Ok(n)
}

// The same of the file of a name.
fn read_file(rt: &impl Files, name: &[u8], bytes: &mut [u8]) -> Option<usize>
    ensures { IfSome result (λ n. n ≤ length bytes.old) }
{
    let name = str::from_utf8(name).ok()?;
    let mut file = File::open(rt, name).ok()?;
    read_full(&mut file, bytes).ok()
}

// The table of a file that is read into this buffer.
fn open_by<const N: usize>(
    rt: &impl Files,
    name: &[u8],
    bytes: &mut [u8],
    table: &mut Table<'_>,
    out: &mut Text<N>,
)
    requires { length out.old + 200 ≤ N }
    ensures text { length out.new ≤ length out.old + 200 }
    ensures room { IfSome table.old.held HeldInRoom → IfSome table.new.held HeldInRoom }
    ensures lists { SameLists table.old table.new }
{
    match read_file(rt, name, bytes) {
        Some(n) => files::open(&bytes[..n], table, out),
        None => out.push_bytes(b"error: the file could not be read"),
    }
}

// The table of the file of this name.
#[inline(never)]
pub fn open<const N: usize>(rt: &impl Files, name: &[u8], table: &mut Table<'_>, out: &mut Text<N>)
    requires { length out.old + 200 ≤ N }
    ensures text { length out.new ≤ length out.old + 200 }
    ensures room { IfSome table.old.held HeldInRoom → IfSome table.new.held HeldInRoom }
    ensures lists { SameLists table.old table.new }
{
    let mut bytes = room();
    open_by(rt, name, &mut bytes, table, out);
}

// ---- by a line

// Does what is left of a line, but for the rest of its answer.
pub fn finish<const N: usize>(
    rt: &impl Files,
    task: Task<'_>,
    table: &mut Table<'_>,
    out: &mut Text<N>,
) -> Option<Rest>
    requires { length out.old + 200 ≤ N }
    ensures text { length out.new ≤ length out.old + 200 }
    ensures room { IfSome table.old.held HeldInRoom → IfSome table.new.held HeldInRoom }
    ensures lists { SameLists table.old table.new }
    ensures in_table { TaskInRoom task.entry → IfSome result RestInTable }
{
    match task {
        Task::Show(rest) => return Some(rest),
        Task::Save(held, name) => save(rt, held, name, table, out),
        Task::Open(name) => open(rt, name, table, out),
    }
    None
}

#[cfg(test)]
mod tests {
    use super::*;
    use std::test::Fail;

    // A table of degree 0 with one reading, that desk 2 has, is saved, and opened over other numbers. The lists are
    // those that were lent, and what is held lies in them.
    #[test]
    fn saved_and_opened(rt: HostRuntime) -> Result<(), Fail> {
        let mut readings = [-1i32; 81921];
        let mut owners = [0u8; 81921];
        let mut counts = [0u64; 20481];
        let mut sums = [0u64; 20481];
        readings[3] = 7;
        owners[3] = 2;
        let held = Held {
            degree: 0,
            readings: 20,
            owners: 20,
            counts: 0,
            sums: 0,
        };
        let mut table = Table {
            held: None,
            readings: &mut readings,
            owners: &mut owners,
            counts: &mut counts,
            sums: &mut sums,
        };
        let mut out: Text<200> = Text::new();
        let saved = finish(&rt, Task::Save(held, b"table"), &mut table, &mut out);
        assert!(rt; saved.is_none());
        assert!(rt; out.as_bytes() == b"ok".as_slice());
        table.readings.fill(5);
        table.owners.fill(1);
        out.clear();
        let opened = finish(&rt, Task::Open(b"table"), &mut table, &mut out);
        assert!(rt; opened.is_none());
        assert!(rt; out.as_bytes() == b"degree 0, 20 places".as_slice());
        let held = table.held.ok_or("no table is open")?;
        assert_eq!(rt; readings[..held.readings].len(), 20);
        assert_eq!(rt; owners[..held.owners].len(), 20);
        assert_eq!(rt; counts[..held.counts].len(), 0);
        assert_eq!(rt; sums[..held.sums].len(), 0);
        assert_eq!(rt; readings[3], 7);
        assert_eq!(rt; readings[4], -1);
        assert_eq!(rt; readings[20], 5);
        assert_eq!(rt; owners[3], 2);
        assert_eq!(rt; owners[4], 0);
        assert!(rt; fs::remove_file(&rt, "table").is_ok());
        Ok(())
    }
}
