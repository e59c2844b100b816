// What is shown of one place of the table's lists, or answered for one triangle.
ghost use Rattle.std.specs.Prelude.{◌+◌, ◌≤◌, length};

use crate::held::{Shown, Table};
use coarse::Tally;
use lines::Text;

// A reading; the desk whose it is; a count and a sum; or a bad number.
#[derive(Clone, Copy)]
pub enum Item {
    Reading(i32),
    Desk(u64),
    Stored(Tally),
    Bad(i64),
}

fn of_reading(x: i32) -> Option<Item> {
    if x == -1 {
        None
    } else if meanings::is_reading(x) {
        Some(Item::Reading(x))
    } else {
        Some(Item::Bad(i64::from(x)))
    }
}

fn of_owner(x: u8) -> Option<Item> {
    if x == 0 {
        None
    } else if meanings::is_desk(u64::from(x)) {
        Some(Item::Desk(u64::from(x)))
    } else {
        Some(Item::Bad(i64::from(x)))
    }
}

fn of_tally(t: Tally) -> Option<Item> {
    if t.count == 0 && t.sum == 0 {
        None
    } else {
        Some(Item::Stored(t))
    }
}

// Past the end of a list there is nothing.
pub fn tally_at(place: usize, table: &Table<'_>) -> Tally {
    Tally {
        count: table.counts.get(place).copied().unwrap_or(0),
        sum: table.sums.get(place).copied().unwrap_or(0),
    }
}

pub fn item_at(shown: Shown, place: usize, table: &Table<'_>) -> Option<Item> {
    match shown {
        Shown::Readings => of_reading(*table.readings.get(place)?),
        Shown::Owners => of_owner(*table.owners.get(place)?),
        Shown::Coarse => of_tally(tally_at(place, table)),
    }
}

pub fn is_counted(item: Option<Item>) -> bool {
    match item {
        None | Some(Item::Bad(_)) => false,
        Some(_) => true,
    }
}

pub fn put_millimetres<const N: usize>(x: i32, out: &mut Text<N>)
    requires { length out.old + 24 ≤ N }
    ensures { length out.new ≤ length out.old + 24 }
{
    out.push_signed(i64::from(x));
    out.push_bytes(b" mm");
}

pub fn put_tally<const N: usize>(t: Tally, out: &mut Text<N>)
    requires { length out.old + 51 ≤ N }
    ensures { length out.new ≤ length out.old + 51 }
{
    out.push_bytes(b"count ");
    out.push_decimal(t.count);
    out.push_bytes(b" sum ");
    out.push_decimal(t.sum);
}

// After a space.
pub fn put_item<const N: usize>(i: Item, out: &mut Text<N>)
    requires { length out.old + 60 ≤ N }
    ensures { length out.new ≤ length out.old + 60 }
{
    out.push(b' ');
    match i {
        Item::Reading(x) => put_millimetres(x, out),
        Item::Desk(desk) => {
            out.push_bytes(b"desk ");
            out.push_decimal(desk);
        }
        Item::Stored(t) => put_tally(t, out),
        Item::Bad(x) => {
            out.push_bytes(b"holds ");
            out.push_signed(x);
        }
    }
}
