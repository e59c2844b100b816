// Where a direction stands in a side, as shares of its three determinants in their sum; and from there the digits of
// the triangles that hold it.
#![tactic(auto)]

pub mod descent;
pub mod walks;
pub mod weaving;

// How many whole parts of 2^24 each determinant has of their sum: for a direction strictly inside a triangle of
// degree 24, the triangle's floor.
#[derive(Clone, Copy)]
pub struct Floors {
    pub f1: u64,
    pub f2: u64,
    pub f3: u64,
}

// 0 where that is its share exactly, and 1 where it has more, but less than one part more.
#[derive(Clone, Copy)]
pub struct Gaps {
    pub g1: u64,
    pub g2: u64,
    pub g3: u64,
}
