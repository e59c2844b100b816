// A table's file (docs/CONSOLE.md, save and open): the bytes of the table that is held, and the table of a file's
// bytes. Reading and writing the file itself is left to the caller.
ghost use Rattle.std.specs.Prelude.{◌≡◌, ◌+◌, ◌*◌, ◌<◌, ◌≤◌, length, take, IfOk, IfSome};
ghost use Rattle.frame.specs.Answers.{over};
ghost use Rattle.tables.specs.Owners.{shared};
ghost use Rattle.tables.specs.Answers.{refused, table_answer, table_told};
ghost use Rattle.table_files.specs.Files.{file_of};
ghost use Rattle.table_files.specs.Refusals.{refuse_table};
ghost use Rattle.tablecalls.specs.Room.{HeldInRoom, SameLists};

use crate::held::{Held, Table};
use crate::{desks, held};
use grid::Refusal;
use lines::Text;
use tables::TableRefusal;

// The places of the longest table, of degree 6. Its file has 1,310,728 bytes.
const MOST: usize = 81920;

// ---- save

// What save refuses of the table that is held; 22 or 25 where a list is shorter than its part.
pub fn refuse_save(held: Held, list: &[i32], owners: &[u8]) -> Result<(), TableRefusal>
    ensures told { held.readings ≤ length list.now → held.owners ≤ length owners.now
        → table_told result ≡ refused (take held.readings list.now)
        (refuse_table held.degree (shared (take held.readings list.now) (take held.owners owners.now))) }
    ensures readings { length list.now < held.readings → table_told result ≡ table_answer 22 0 }
    ensures owners { held.readings ≤ length list.now → length owners.now < held.owners
        → table_told result ≡ table_answer 25 0 }
{
    let list = list.get(..held.readings).ok_or(Refusal::TableLength)?;
    let owners = owners.get(..held.owners).ok_or(Refusal::Owners)?;
    table_files::refuse_table(held.degree, list, owners)
}

// The bytes of a table that is not refused, from the start of a buffer on, and how many they are; none of one that has
// no file.
pub fn put_file(held: Held, list: &[i32], owners: &[u8], out: &mut [u8]) -> usize
    requires { 1310728 ≤ length out.old }
    ensures within { result ≤ 1310728 }
    ensures none { result ≡ 0 → out.new ≡ out.old }
    ensures file { 0 < result → out.new ≡ over (file_of held.degree
        (shared (take held.readings list.now) (take held.readings owners.now))) out.old }
    ensures size { held.readings ≤ 81920 → held.readings ≤ length list.now
        → held.readings ≤ length owners.now → result ≡ 8 + 16 * held.readings }
{
    let n = held.readings;
    match (list.get(..n), owners.get(..n)) {
        (Some(list), Some(owners)) if n <= MOST => {
            table_files::put_table(held.degree, list, owners, out);
            8 + 16 * n
        }
        _ => 0,
    }
}

// ---- open

// The degree that a file says; one that has less than eight bytes says none.
fn degree_in(bytes: &[u8]) -> u64 {
    if bytes.len() < 8 {
        return 0;
    }
    octets::get8(bytes)
}

// How many places the table of a file has; or 1, 20 and 22, of the degree that the file says, and of its length.
fn places_in(bytes: &[u8], degree: u64) -> Result<usize, Refusal>
    ensures { IfOk result (λ n. (n ≤ 81920) × (length bytes.now ≡ 8 + 16 * n)) }
{
    refusing::refuse_degree(degree)?;
    let n = held::places_of(degree);
    if bytes.len() != 8 + 16 * n {
        return Err(Refusal::TableLength);
    }
    Ok(n)
}

// The numbers of a file of n places over the first n of each list. Where one is shorter, neither is written.
fn read_first(bytes: &[u8], n: usize, readings: &mut [i32], owners: &mut [u8])
    requires { length bytes.now ≡ 8 + 16 * n }
{
    if let (Some(readings), Some(owners)) = (readings.get_mut(..n), owners.get_mut(..n)) {
        table_files::read_table(bytes, readings, owners);
    }
}

// 23 and 25: of the numbers, in lists of their own, since a refusal leaves the table as it is.
fn check_numbers(bytes: &[u8], degree: u64, n: usize) -> Result<(), TableRefusal>
    requires { (length bytes.now ≡ 8 + 16 * n) × (n ≤ 81920) }
{
    let mut readings = [0i32; 81920];
    let mut owners = [0u8; 81920];
    read_first(bytes, n, &mut readings, &mut owners);
    table_files::refuse_table(degree, &readings[..n], &owners[..n])
}

// The counts and sums of the table worked out afresh. None where a list is shorter than its part, or where it is
// refused.
fn work_out(held: Held, readings: &mut [i32], counts: &mut [u64], sums: &mut [u64]) -> Option<()> {
    let list = readings.get_mut(..held.readings)?;
    let counts = counts.get_mut(..held.counts)?;
    let sums = sums.get_mut(..held.sums)?;
    soundings::work_out(held.degree, list, counts, sums).ok()
}

// The table of a file's bytes, with its counts and sums worked out afresh.
fn read_file(bytes: &[u8], table: &mut Table<'_>) -> Result<Held, TableRefusal>
    ensures room { IfOk result HeldInRoom }
    ensures held { table.new.held ≡ table.old.held }
    ensures lists { SameLists table.old table.new }
{
    let degree = degree_in(bytes);
    let n = places_in(bytes, degree)?;
    check_numbers(bytes, degree, n)?;
    read_first(bytes, n, table.readings, table.owners);
    let parents = held::parents_of(degree);
    let held = Held {
        degree,
        readings: n,
        owners: n,
        counts: parents,
        sums: parents,
    };
    // (In lists that have their parts the numbers are those that were checked, and nothing is refused.)
    let _ = work_out(held, table.readings, table.counts, table.sums);
    Ok(held)
}

// Opens the table of a file's bytes.
pub fn open<const N: usize>(bytes: &[u8], table: &mut Table<'_>, out: &mut Text<N>)
    requires { length out.old + 200 ≤ N }
    ensures text { length out.new ≤ length out.old + 200 }
    ensures room { IfSome table.old.held HeldInRoom → IfSome table.new.held HeldInRoom }
    ensures lists { SameLists table.old table.new }
{
    match read_file(bytes, table) {
        Ok(held) => {
            table.held = Some(held);
            desks::put_opened(held, out);
        }
        Err(f) => desks::put_refused(f, out),
    }
}
