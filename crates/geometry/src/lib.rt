// Rings and points on a flat plane, exactly. Coordinates are millionths of a degree, each moved up by half its range so that none is negative: by 180 and by
// 90 degrees. A ring is taken point by point, and what is kept of it is its outline.
#![tactic(auto)]

pub mod edge;
pub mod held;
pub mod points;
pub mod ring;
pub mod sums;

// A point, moved up.
#[derive(Clone, Copy, Debug, PartialEq, Eq)]
pub struct Position {
    pub lon: u64,
    pub lat: u64,
}

// A number that may be negative: what is added less what is taken away. It has no `==`, since equal numbers may differ in both.
#[derive(Clone, Copy, Debug)]
pub struct Balance {
    pub plus: u64,
    pub minus: u64,
}

// What is kept of a ring whose points are taken one after the other: how many were taken, the first of them, the last (the origin before any), and the area sum
// of a line from the origin over them, as far as the ceiling of positions.
#[derive(Clone, Copy, Debug)]
pub struct Outline {
    pub count: u32,
    pub first: Option<Position>,
    pub last: Position,
    pub area: Balance,
}

// Where a point stands to those rings of a polygon that were asked: on an edge of one, or held by them or not. An `Option<bool>` would not say what no answer means.
#[derive(Clone, Copy, Debug, PartialEq, Eq)]
pub enum Standing {
    Edge,
    Is(bool),
}
