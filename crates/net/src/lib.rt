// The net: sides, division, weights, steps, names and rings (specs/), with the laws of them (proofs/); in code the
// kinds of value that they speak of, the seams, and the step across an edge. What a corner's weights, name and ring are
// is worked out in the crate knots.
#![tactic(auto)]

pub mod seams;
pub mod states;
pub mod steps;

use words::TriangleCode;

// A triangle inside one side: which way it points, and the least of its corners' weights on each of the side's corners.
#[derive(Clone, Copy)]
pub enum State {
    Up(u64, u64, u64),
    Down(u64, u64, u64),
}

// A point of a side: its weights on the side's corners.
#[derive(Clone, Copy)]
pub struct Point {
    pub w1: u64,
    pub w2: u64,
    pub w3: u64,
}

// A triangle of a side by its path, and a corner's number there.
#[derive(Clone, Copy)]
pub struct Corner {
    pub path: u64,
    pub number: u64,
}

// An edge of a triangle: the triangle's code, and the edge's number there.
#[derive(Clone, Copy)]
pub struct Edge {
    pub code: TriangleCode,
    pub number: u64,
}
