// The calls of document 01, the opposites, those on the paper's codes, those of a table of soundings, the marks, and
// those of a cell list, exported to C, for `./bench` to count; checking is the crate host_c's. Each is thin: it hands
// the numbers on, and answers one number that depends on all numbers of the answer, so that the compiler can leave
// nothing out.
// Where a code or a name is answered, this is the code (with the edge's number in its lowest bits) or the name, or the
// refusal's number.
// Two calls are counted without all of their answer: crossing drops how the corners turned, as the call for a C host
// does, and get answers what the table has alone.
// A contract says that the number is made of the call's own answer; those that mix signed numbers or floats have none.
#![tactic(auto)]

ghost use Rattle.std.specs.Prelude.{◌≡◌, ◌≤◌, length};
ghost use Rattle.std.specs.Int.Bits.{bit_xor};
ghost use Rattle.words.specs.Family.{CodeAnswer, code_of, ParentAnswer, ChildAnswer};
ghost use Rattle.net.specs.Corners.{name_of};
ghost use Rattle.corners.specs.Answers.{StepAnswer, NameAnswer, CountAnswer, CrossAnswer, WeightsAnswer};
ghost use Rattle.corners.specs.Answers.{NameWeightsAnswer, NamingAnswer, BackAnswer, RingAnswer};
ghost use Rattle.directions.specs.Answers.{FileAnswer, ListAnswer};
ghost use Rattle.opposites.specs.Answers.{OppositeAnswer, OppositeNameAnswer};
ghost use Rattle.paper.specs.Answers.{FromDomainAnswer, FromVertexAnswer, ToDomainAnswer, ToVertexAnswer};
ghost use Rattle.sweeps.specs.Answers.{SweepResult};
ghost use Rattle.sweeps.specs.Sweeps.{SweepAnswer};
ghost use Rattle.tables.specs.Owners.{shared};
ghost use Rattle.tables.specs.Answers.{TableAnswer, table_told};
ghost use Rattle.coarse.specs.Sums.{coarse, chart};
ghost use Rattle.coarse.specs.Answers.{TakeAnswer, SetAnswer, ClearAnswer, GiveAnswer, WorkOutAnswer};
ghost use Rattle.cells.specs.Checking.{Verdict, checked};
ghost use Rattle.verdicts.specs.Program.{line};
ghost use Rattle.mending.specs.Answers.{MendAnswer, lists, MendResult};

use frame::number_of;
use grid::{Coordinates, CornerName, Direction, Point, Ticks, TriangleCode};
use marks::Mark;
use tables::TableRefusal;

// ---- words

#[unsafe(no_mangle)]
pub extern "C" fn bench_parent(code: u64) -> u64
    ensures { (a : CodeAnswer) × ParentAnswer (code_of code) a
        × (result ≡ bit_xor a.code.0 a.refusal) }
{
    TriangleCode(code).parent().map_or_else(u64::from, |t| t.0)
}

#[unsafe(no_mangle)]
pub extern "C" fn bench_child(code: u64, digit: u64) -> u64
    ensures { (a : CodeAnswer) × ChildAnswer (code_of code) digit a
        × (result ≡ bit_xor a.code.0 a.refusal) }
{
    TriangleCode(code)
        .child(digit)
        .map_or_else(u64::from, |t| t.0)
}

#[unsafe(no_mangle)]
pub extern "C" fn bench_opposite(code: u64) -> u64
    ensures { (a : CodeAnswer) × OppositeAnswer (code_of code) a
        × (result ≡ bit_xor a.code.0 a.refusal) }
{
    opposites::opposite(TriangleCode(code)).map_or_else(u64::from, |t| t.0)
}

// ---- corners and edges

#[unsafe(no_mangle)]
pub extern "C" fn bench_cross(code: u64, edge: u64) -> u64
    ensures { (a : StepAnswer) × CrossAnswer (code_of code) edge a
        × (result ≡ bit_xor (bit_xor a.code.0 a.edge) a.refusal) }
{
    grid::cross(TriangleCode(code), edge).map_or_else(u64::from, |s| s.code.0 ^ s.edge)
}

#[unsafe(no_mangle)]
pub extern "C" fn bench_name(code: u64, corner: u64) -> u64
    ensures { (a : NameAnswer) × NamingAnswer (code_of code) corner a
        × (result ≡ bit_xor a.name.0 a.refusal) }
{
    grid::name_of(TriangleCode(code), corner).map_or_else(u64::from, |q| q.0)
}

#[unsafe(no_mangle)]
pub extern "C" fn bench_opposite_name(name: u64) -> u64
    ensures { (a : NameAnswer) × OppositeNameAnswer (name_of name) a
        × (result ≡ bit_xor a.name.0 a.refusal) }
{
    opposites::opposite_name(CornerName(name)).map_or_else(u64::from, |q| q.0)
}

#[unsafe(no_mangle)]
pub extern "C" fn bench_back(degree: u64, weights: &[u64]) -> u64
    ensures { (a : NameAnswer) × BackAnswer degree weights.now a
        × (result ≡ bit_xor a.name.0 a.refusal) }
{
    grid::name_back(degree, weights).map_or_else(u64::from, |q| q.0)
}

#[unsafe(no_mangle)]
pub extern "C" fn bench_weights(code: u64, corner: u64, out: &mut [u64]) -> u64
    ensures { WeightsAnswer (code_of code) corner out.old result out.new }
{
    number_of(grid::weights_of(TriangleCode(code), corner, out))
}

#[unsafe(no_mangle)]
pub extern "C" fn bench_name_weights(name: u64, out: &mut [u64]) -> u64
    ensures { NameWeightsAnswer (name_of name) out.old result out.new }
{
    number_of(grid::weights_of_name(CornerName(name), out))
}

#[unsafe(no_mangle)]
pub extern "C" fn bench_ring(name: u64, out: &mut [u64]) -> u64
    ensures { (a : CountAnswer) × RingAnswer (name_of name) out.old a out.new
        × (result ≡ bit_xor a.count a.refusal) }
{
    grid::ring(CornerName(name), out).unwrap_or_else(u64::from)
}

// ---- the paper's codes

#[unsafe(no_mangle)]
pub extern "C" fn bench_paper(code: u64, out: &mut [u64]) -> u64
    ensures { (a : CountAnswer) × ToDomainAnswer (code_of code) out.old a out.new
        × (result ≡ bit_xor a.count a.refusal) }
{
    paper::to_domain(TriangleCode(code), out).unwrap_or_else(u64::from)
}

#[unsafe(no_mangle)]
pub extern "C" fn bench_paper_name(name: u64, out: &mut [u64]) -> u64
    ensures { (a : CountAnswer) × ToVertexAnswer (name_of name) out.old a out.new
        × (result ≡ bit_xor a.count a.refusal) }
{
    paper::to_vertex(CornerName(name), out).unwrap_or_else(u64::from)
}

#[unsafe(no_mangle)]
pub extern "C" fn bench_from_paper(code: &[u64]) -> u64
    ensures { (a : CodeAnswer) × FromDomainAnswer code.now a
        × (result ≡ bit_xor a.code.0 a.refusal) }
{
    paper::from_domain(code).map_or_else(u64::from, |t| t.0)
}

#[unsafe(no_mangle)]
pub extern "C" fn bench_from_paper_vertex(code: &[u64]) -> u64
    ensures { (a : NameAnswer) × FromVertexAnswer code.now a
        × (result ≡ bit_xor a.name.0 a.refusal) }
{
    paper::from_vertex(code).map_or_else(u64::from, |q| q.0)
}

// ---- a corner's place

fn mixed_coordinates(at: Coordinates) -> i64 {
    at.x.u ^ at.x.v ^ at.y.u ^ at.y.v ^ at.z.u ^ at.z.v
}

fn mixed_ticks(at: Ticks) -> i64 {
    at.x ^ at.y ^ at.z
}

fn mixed_point(at: Point) -> f64 {
    at.x + at.y + at.z
}

#[unsafe(no_mangle)]
pub extern "C" fn bench_exact(code: u64, corner: u64) -> i64 {
    grid::coordinates_of(TriangleCode(code), corner).map_or(0, mixed_coordinates)
}

#[unsafe(no_mangle)]
pub extern "C" fn bench_name_exact(name: u64) -> i64 {
    grid::coordinates_of_name(CornerName(name)).map_or(0, mixed_coordinates)
}

#[unsafe(no_mangle)]
pub extern "C" fn bench_t(code: u64, corner: u64) -> i64 {
    grid::ticks_of(TriangleCode(code), corner).map_or(0, mixed_ticks)
}

#[unsafe(no_mangle)]
pub extern "C" fn bench_name_t(name: u64) -> i64 {
    grid::ticks_of_name(CornerName(name)).map_or(0, mixed_ticks)
}

#[unsafe(no_mangle)]
pub extern "C" fn bench_drawn(code: u64, corner: u64) -> f64 {
    grid::drawn_of(TriangleCode(code), corner).map_or(0.0, mixed_point)
}

#[unsafe(no_mangle)]
pub extern "C" fn bench_name_drawn(name: u64) -> f64 {
    grid::drawn_of_name(CornerName(name)).map_or(0.0, mixed_point)
}

// ---- directions

#[unsafe(no_mangle)]
pub extern "C" fn bench_file(degree: u64, x: i32, y: i32, z: i32) -> u64
    ensures { (a : CodeAnswer) × FileAnswer degree (record { x = x; y = y; z = z }) a
        × (result ≡ bit_xor a.code.0 a.refusal) }
{
    grid::file(degree, Direction { x, y, z }).map_or_else(u64::from, |t| t.0)
}

#[unsafe(no_mangle)]
pub extern "C" fn bench_list(degree: u64, x: i32, y: i32, z: i32, out: &mut [u64]) -> u64
    ensures { (a : CountAnswer) × ListAnswer degree (record { x = x; y = y; z = z }) out.old a out.new
        × (result ≡ bit_xor a.count a.refusal) }
{
    grid::list(degree, Direction { x, y, z }, out).unwrap_or_else(u64::from)
}

// ---- a sweep

#[unsafe(no_mangle)]
pub extern "C" fn bench_sweep(degree: u64, dirs: &[i32], codes: &mut [u64]) -> u64
    ensures { (a : SweepAnswer) × SweepResult degree dirs.now codes.old a codes.new
        × (result ≡ bit_xor (bit_xor (bit_xor a.refusal a.refused) a.place) a.first) }
{
    match sweeper::sweep(degree, dirs, codes) {
        Ok(None) => 0,
        Ok(Some(r)) => r.count ^ r.place ^ u64::from(r.refusal),
        Err(f) => u64::from(f),
    }
}

// ---- a table of soundings

// A reading, or -1.
#[unsafe(no_mangle)]
pub extern "C" fn bench_get(degree: u64, code: u64, list: &[i32]) -> i32 {
    match soundings::get(degree, TriangleCode(code), list) {
        Ok(Some(reading)) => reading,
        _ => -1,
    }
}

// ---- marks

fn mixed_mark(m: Mark) -> f64 {
    match m {
        Mark::Nothing => 0.0,
        Mark::Dot(p) => mixed_point(p),
        Mark::Segment(p, q) => mixed_point(p) + mixed_point(q),
    }
}

#[unsafe(no_mangle)]
pub extern "C" fn bench_table_mark(degree: u64, code: u64, list: &[i32]) -> f64 {
    marks::table_mark(degree, TriangleCode(code), list).map_or(0.0, mixed_mark)
}

#[unsafe(no_mangle)]
pub extern "C" fn bench_edge_mark(code: u64, edge: u64) -> f64 {
    marks::edge_mark(TriangleCode(code), edge).map_or(0.0, mixed_mark)
}

// ---- what desks do with a triangle

fn mixed(answer: Result<(), TableRefusal>) -> u64
    ensures { result ≡ bit_xor (table_told answer).refusal (table_told answer).place }
{
    match answer {
        Ok(()) => 0,
        Err(TableRefusal::Call(f)) => u64::from(f),
        Err(TableRefusal::BadNumber(place)) => 23 ^ place,
    }
}

#[unsafe(no_mangle)]
pub extern "C" fn bench_take(
    desk: u64,
    degree: u64,
    code: u64,
    list: &mut [i32],
    owners: &mut [u8],
    counts: &mut [u64],
    sums: &mut [u64],
) -> u64
    ensures { (a : TableAnswer)
        × TakeAnswer desk degree (code_of code) (chart (shared list.old owners.old)
        (coarse counts.old sums.old)) a
        (chart (shared list.new owners.new) (coarse counts.new sums.new))
        × (result ≡ bit_xor a.refusal a.place) }
{
    mixed(soundings::take(desk, degree, TriangleCode(code), list, owners, counts, sums))
}

#[unsafe(no_mangle)]
pub extern "C" fn bench_set(
    desk: u64,
    degree: u64,
    code: u64,
    reading: i32,
    list: &mut [i32],
    owners: &mut [u8],
    counts: &mut [u64],
    sums: &mut [u64],
) -> u64
    ensures { (a : TableAnswer)
        × SetAnswer desk degree (code_of code) reading (chart (shared list.old owners.old)
        (coarse counts.old sums.old)) a
        (chart (shared list.new owners.new) (coarse counts.new sums.new))
        × (result ≡ bit_xor a.refusal a.place) }
{
    mixed(soundings::set(
        desk,
        degree,
        TriangleCode(code),
        reading,
        list,
        owners,
        counts,
        sums,
    ))
}

#[unsafe(no_mangle)]
pub extern "C" fn bench_clear(
    desk: u64,
    degree: u64,
    code: u64,
    list: &mut [i32],
    owners: &mut [u8],
    counts: &mut [u64],
    sums: &mut [u64],
) -> u64
    ensures { (a : TableAnswer)
        × ClearAnswer desk degree (code_of code) (chart (shared list.old owners.old)
        (coarse counts.old sums.old)) a
        (chart (shared list.new owners.new) (coarse counts.new sums.new))
        × (result ≡ bit_xor a.refusal a.place) }
{
    mixed(soundings::clear(desk, degree, TriangleCode(code), list, owners, counts, sums))
}

#[unsafe(no_mangle)]
pub extern "C" fn bench_give(
    desk: u64,
    degree: u64,
    code: u64,
    list: &mut [i32],
    owners: &mut [u8],
    counts: &mut [u64],
    sums: &mut [u64],
) -> u64
    ensures { (a : TableAnswer)
        × GiveAnswer desk degree (code_of code) (chart (shared list.old owners.old)
        (coarse counts.old sums.old)) a
        (chart (shared list.new owners.new) (coarse counts.new sums.new))
        × (result ≡ bit_xor a.refusal a.place) }
{
    mixed(soundings::give(desk, degree, TriangleCode(code), list, owners, counts, sums))
}

#[unsafe(no_mangle)]
pub extern "C" fn bench_work_out(
    degree: u64,
    list: &[i32],
    counts: &mut [u64],
    sums: &mut [u64],
) -> u64
    ensures { (a : TableAnswer)
        × WorkOutAnswer degree list.now (coarse counts.old sums.old) a
        (coarse counts.new sums.new)
        × (result ≡ bit_xor a.refusal a.place) }
{
    mixed(soundings::work_out(degree, list, counts, sums))
}

// ---- a cell list

#[unsafe(no_mangle)]
pub extern "C" fn bench_check_cells(words: &[u64]) -> u64
    ensures { (a : Verdict) × (a ≡ checked words.now)
        × (result ≡ bit_xor a.reason a.place) }
{
    match cells::check(words) {
        Ok(()) => 0,
        Err(o) => u64::from(o.reason) ^ o.place,
    }
}

// The length of the line of a file that comes in one part, where the buffers are large enough.
#[unsafe(no_mangle)]
pub extern "C" fn bench_cells_line(file: &[u8], head: &mut [u8], out: &mut [u8]) -> u64
    ensures { 32768 ≤ length head.old → 55 ≤ length out.old → result ≡ length (line file.now) }
{
    if head.len() < 32768 {
        return 0;
    }
    if out.len() < 55 {
        return 0;
    }
    let size = verdicts::take_in(file, head, 0);
    verdicts::put_line(head, size, out) as u64
}

#[unsafe(no_mangle)]
pub extern "C" fn bench_mend_cells(
    words: &[u64],
    mended: &mut [u64],
    changed: &mut [u64],
    reasons: &mut [u64],
) -> u64
    ensures { (a : MendAnswer)
        × MendResult words.now (lists mended.old changed.old reasons.old) a
        (lists mended.new changed.new reasons.new)
        × (result ≡ bit_xor (bit_xor a.refusal a.count) a.changes) }
{
    mender::mend(words, mended, changed, reasons).map_or_else(u64::from, |m| m.count ^ m.changes)
}
