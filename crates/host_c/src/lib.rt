// The calls of the crate host once more, each with the same clauses, as what a program in C calls: the static library
// that ./install installs. A static library can be no other crate's library, and so host stands apart, for contracts to
// hold to its promises; tests/header.py holds each function here to the one of host that it calls.
#![tactic(auto)]

ghost use Rattle.std.specs.Prelude.{◌≡◌};
ghost use Rattle.words.specs.Family.{code_of};
ghost use Rattle.words.specs.Refusals.{check_code};
ghost use Rattle.net.specs.Corners.{name_of};
ghost use Rattle.net.specs.Refusals.{check_name};
ghost use Rattle.grid.specs.Writing.{towards};
ghost use Rattle.mending.specs.Answers.{lists};
ghost use Rattle.exports.specs.Answers.{CrossBytes, FileBytes, ListBytes};
ghost use Rattle.host_sweeps.specs.Answers.{SweepBytes};
ghost use Rattle.host_cells.specs.Answers.{CheckBytes, MendBytes};
ghost use Rattle.harbour.specs.Small.{small_code};
ghost use Rattle.harbour.specs.Refusals.{check_small};
ghost use Rattle.host_harbour.specs.Answers.{SmallBytes, LargeBytes, CrossSmallBytes, FileSmallBytes};
ghost use Rattle.host_opposites.specs.Answers.{OppositeBytes, OppositeNameBytes};

// Checking a word as a triangle code.
#[unsafe(no_mangle)]
pub extern "C" fn grid_check_triangle(word: u64) -> u64
    ensures { result ≡ check_code (code_of word) }
{
    host::grid_check_triangle(word)
}

// Checking a word as a corner name.
#[unsafe(no_mangle)]
pub extern "C" fn grid_check_name(word: u64) -> u64
    ensures { result ≡ check_name (name_of word) }
{
    host::grid_check_name(word)
}

// Crossing an edge: the code and the edge's number there, in sixteen bytes.
#[unsafe(no_mangle)]
pub extern "C" fn grid_cross(code: u64, edge: u64, out: &mut [u8]) -> u64
    ensures { CrossBytes (code_of code) edge out.old result out.new }
{
    host::grid_cross(code, edge, out)
}

// Filing a direction: the code, in eight bytes.
#[unsafe(no_mangle)]
pub extern "C" fn grid_file(degree: u64, x: i32, y: i32, z: i32, out: &mut [u8]) -> u64
    ensures { FileBytes degree (towards x y z) out.old result out.new }
{
    host::grid_file(degree, x, y, z, out)
}

// Listing: the count and then the codes, in at most fifty-six bytes.
#[unsafe(no_mangle)]
pub extern "C" fn grid_list(degree: u64, x: i32, y: i32, z: i32, out: &mut [u8]) -> u64
    ensures { ListBytes degree (towards x y z) out.old result out.new }
{
    host::grid_list(degree, x, y, z, out)
}

// A sweep: twelve bytes a direction, eight a code, and in twenty-four bytes how many directions are refused, the first
// one's place and its refusal.
#[unsafe(no_mangle)]
pub extern "C" fn grid_sweep(degree: u64, dirs: &[u8], codes: &mut [u8], out: &mut [u8]) -> u64
    ensures { SweepBytes degree dirs.now codes.old out.old result
        (codes.new, out.new) }
{
    host::grid_sweep(degree, dirs, codes, out)
}

// Checking a cell list: the reason and the place of its first offence, in sixteen bytes.
#[unsafe(no_mangle)]
pub extern "C" fn grid_check_cells(list: &[u8], out: &mut [u8]) -> u64
    ensures { CheckBytes list.now out.old result out.new }
{
    host::grid_check_cells(list, out)
}

// Mending a cell list: its codes; for each change its word and its reason, in two lists; and both counts, in sixteen
// bytes.
#[unsafe(no_mangle)]
pub extern "C" fn grid_mend_cells(
    list: &[u8],
    mended: &mut [u8],
    words: &mut [u8],
    reasons: &mut [u8],
    out: &mut [u8],
) -> u64
    ensures { MendBytes list.now (lists mended.old words.old reasons.old)
        out.old result
        (lists mended.new words.new reasons.new, out.new) }
{
    host::grid_mend_cells(list, mended, words, reasons, out)
}

// The small code of a code, in four bytes.
#[unsafe(no_mangle)]
pub extern "C" fn grid_small(code: u64, out: &mut [u8]) -> u64
    ensures { SmallBytes (code_of code) out.old result out.new }
{
    host::grid_small(code, out)
}

// The code of a small one, in eight bytes.
#[unsafe(no_mangle)]
pub extern "C" fn grid_large(word: u32, out: &mut [u8]) -> u64
    ensures { LargeBytes (small_code word) out.old result out.new }
{
    host::grid_large(word, out)
}

// Checking a word as a small code.
#[unsafe(no_mangle)]
pub extern "C" fn grid_check_small(word: u32) -> u64
    ensures { result ≡ check_small (small_code word) }
{
    host::grid_check_small(word)
}

// Crossing an edge on the small form: the small code and the edge's number there, in twelve bytes.
#[unsafe(no_mangle)]
pub extern "C" fn grid_cross_small(word: u32, edge: u64, out: &mut [u8]) -> u64
    ensures { CrossSmallBytes (small_code word) edge out.old result out.new }
{
    host::grid_cross_small(word, edge, out)
}

// Filing a direction on the small form: the small code, in four bytes.
#[unsafe(no_mangle)]
pub extern "C" fn grid_file_small(degree: u64, x: i32, y: i32, z: i32, out: &mut [u8]) -> u64
    ensures { FileSmallBytes degree (towards x y z) out.old result out.new }
{
    host::grid_file_small(degree, x, y, z, out)
}

// The opposite of a triangle: its code, in eight bytes.
#[unsafe(no_mangle)]
pub extern "C" fn grid_opposite(code: u64, out: &mut [u8]) -> u64
    ensures { OppositeBytes (code_of code) out.old result out.new }
{
    host::grid_opposite(code, out)
}

// The opposite of a corner: its name, in eight bytes.
#[unsafe(no_mangle)]
pub extern "C" fn grid_opposite_name(name: u64, out: &mut [u8]) -> u64
    ensures { OppositeNameBytes (name_of name) out.old result out.new }
{
    host::grid_opposite_name(name, out)
}
