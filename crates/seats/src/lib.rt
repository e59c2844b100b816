// Where a direction stands: how it is found (specs/), with the laws of it (proofs/); in code the kinds of value that
// they speak of, whole numbers near to its determinants, and their division. The triangles that hold a direction are
// found in the crate holders.
#![tactic(auto)]

pub mod dividing;
pub mod placing;

use shares::{Floors, Gaps};

// The side that holds a direction, and the floors there.
#[derive(Clone, Copy)]
pub struct Found {
    pub side: u64,
    pub floors: Floors,
}

// The octant and the kind of the least side that holds a direction, and its shares there, in the order of the roles.
#[derive(Clone, Copy)]
pub struct Stand {
    pub octant: u64,
    pub kind: u64,
    pub floors: Floors,
    pub gaps: Gaps,
}

// Three numbers, one for each corner of a side.
#[derive(Clone, Copy)]
pub struct Triple {
    pub c1: u64,
    pub c2: u64,
    pub c3: u64,
}
