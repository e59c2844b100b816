// The lines of standard output, one for each direction.
ghost use Rattle.std.specs.Prelude.{◌+◌, ◌*◌, ◌≤◌, length};

use filing::Direction;
use lines::Text;

// The refusal of a direction that is refused, by the single call: the sweep of all tells the first one's alone.
fn put_refused<const N: usize>(degree: u64, direction: &[i32], out: &mut Text<N>)
    requires { length out.old + 28 ≤ N }
    ensures { length out.new ≤ length out.old + 28 }
{
    let [x, y, z] = *direction else {
        return;
    };
    if let Err(f) = directions::file(degree, Direction { x, y, z }) {
        out.push_bytes(b"refused ");
        out.push_decimal(u64::from(f));
    }
}

// The line of a direction. No code is 0: a place with 0 is that of a refused direction.
fn put_line<const N: usize>(degree: u64, direction: &[i32], code: u64, out: &mut Text<N>)
    requires { length out.old + 29 ≤ N }
    ensures { length out.new ≤ length out.old + 29 }
{
    if code == 0 {
        put_refused(degree, direction, out);
    } else {
        out.push_word(code);
    }
    out.push(b'\n');
}

// The lines of the directions, of which these are the codes.
pub fn put_all<const N: usize>(degree: u64, dirs: &[i32], codes: &[u64], out: &mut Text<N>)
    requires { length out.old + 29 * length codes.now ≤ N }
    ensures { length out.new ≤ length out.old + 29 * length codes.now }
{
    for (code, direction) in codes.iter().zip(dirs.chunks_exact(3)) {
        put_line(degree, direction, *code, out);
    }
}

// The line of a direction that was not read.
pub fn put_not_read<const N: usize>(out: &mut Text<N>)
    requires { length out.old + 9 ≤ N }
    ensures { length out.new ≤ length out.old + 9 }
{
    out.push_bytes(b"not read\n");
}
