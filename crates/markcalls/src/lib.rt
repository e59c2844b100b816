// The console's calls for marks (document 02, 2026-14): a mark as it is written, and that of an edge. The mark of a
// triangle is asked of a table (tablecalls).
#![tactic(auto)]

ghost use Rattle.std.specs.Prelude.{◌+◌, ◌≤◌, length};

use lines::{Text, Words};
use marks::Mark;
use replies::{answers, arguments};

pub fn put_mark<const N: usize>(m: Mark, out: &mut Text<N>)
    requires { length out.old + 600 ≤ N }
    ensures { length out.new ≤ length out.old + 600 }
{
    match m {
        Mark::Nothing => out.push_bytes(b"nothing"),
        Mark::Dot(p) => {
            out.push_bytes(b"dot");
            answers::put_point(p, out);
        }
        Mark::Segment(p, q) => {
            out.push_bytes(b"segment");
            answers::put_point(p, out);
            out.push_bytes(b" to");
            answers::put_point(q, out);
        }
    }
}

// edge-mark; None where its arguments cannot be read.
pub fn edge_mark<const N: usize>(words: Words<'_>, out: &mut Text<N>) -> Option<()>
    requires { length out.old + 15000 ≤ N }
    ensures { length out.new ≤ length out.old + 15000 }
{
    let (t, edge) = arguments::code_and_number(words)?;
    match marks::edge_mark(t, edge) {
        Ok(m) => put_mark(m, out),
        Err(f) => answers::refused(f, out),
    }
    Some(())
}
