// A lent list: what it holds before a call, and its places as they are shown after it.
ghost use Rattle.std.specs.Prelude.{◌+◌, ◌-◌, ◌*◌, ◌≤◌, length};

use lines::Text;

// Before a call the places hold 1, 2, 3 and so on.
pub fn number(list: &mut [u64]) {
    for (i, place) in list.iter_mut().enumerate() {
        *place = i as u64 + 1;
    }
}

// How a place of a list is written.
#[derive(Clone, Copy)]
pub enum Entry {
    Decimal,
    Word,
}

fn put_entry<const N: usize>(e: Entry, w: u64, out: &mut Text<N>)
    requires { length out.old + 20 ≤ N }
    ensures { length out.new ≤ length out.old + 20 }
{
    match e {
        Entry::Decimal => out.push_decimal(w),
        Entry::Word => out.push_word(w),
    }
}

fn put_next<const N: usize>(e: Entry, w: u64, out: &mut Text<N>)
    requires { length out.old + 21 ≤ N }
    ensures { length out.new ≤ length out.old + 21 }
{
    out.push(b' ');
    put_entry(e, w, out);
}

// The places of a list, each after a space.
pub fn put_rest<const N: usize>(e: Entry, list: &[u64], out: &mut Text<N>)
    requires { (length list.now ≤ 64) × (length out.old + 21 * length list.now ≤ N) }
    ensures { length out.new ≤ length out.old + 21 * length list.now }
{
    for w in list {
        put_next(e, *w, out);
    }
}

// All places of a list as a call left them.
pub fn put_places<const N: usize>(e: Entry, list: &[u64], out: &mut Text<N>)
    requires { (length list.now ≤ 64) × (length out.old + 1346 ≤ N) }
    ensures { length out.new ≤ length out.old + 1346 }
{
    out.push_bytes(b" |");
    put_rest(e, list, out);
}
