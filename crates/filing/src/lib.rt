// Directions: exact coordinates, drawn coordinates, and the determinants by which a triangle holds a direction.
#![tactic(auto)]

pub mod drawn;
pub mod weighing;

use golden::Golden;

// The exact coordinates of a corner, on each axis u + vφ.
#[derive(Clone, Copy)]
pub struct Coordinates {
    pub x: Golden,
    pub y: Golden,
    pub z: Golden,
}

// The whole number t on each axis.
#[derive(Clone, Copy)]
pub struct Ticks {
    pub x: i64,
    pub y: i64,
    pub z: i64,
}

// The drawn coordinates of a corner.
#[derive(Clone, Copy)]
pub struct Point {
    pub x: f64,
    pub y: f64,
    pub z: f64,
}

// A direction: any numbers; what lies outside a thousand million either way is refused.
#[derive(Clone, Copy)]
pub struct Direction {
    pub x: i32,
    pub y: i32,
    pub z: i32,
}

// The determinants of a triangle with a direction in place of corner 1, 2 and 3.
#[derive(Clone, Copy)]
pub struct Determinants {
    pub d1: Golden,
    pub d2: Golden,
    pub d3: Golden,
}
