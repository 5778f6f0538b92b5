// Points with exact coordinates, the steps between them, and the way in which three of them turn.
#![tactic(auto)]

ghost use Rattle.algebra.specs.Bounds.{Within};

use coordinates::Packed;
pub use coordinates::Step;

pub mod kinds;
pub mod points;
pub mod text;

#[derive(Debug, Clone, Copy, PartialEq, Eq)]
pub enum Turn {
    Left,
    Straight,
    Right,
}

// Plain coordinates of a point, as a list has them; they may be out of range.
#[derive(Debug, Clone, Copy, PartialEq, Eq)]
pub struct IntegerRow {
    pub x: i32,
    pub y: i32,
}

// The same for x = xp + xq√2 and y = yp + yq√2.
#[derive(Debug, Clone, Copy, PartialEq, Eq)]
pub struct QuadraticRow {
    pub xp: i32,
    pub xq: i32,
    pub yp: i32,
    pub yq: i32,
}

// A point with whole coordinates, from -10,000 to 10,000.
#[derive(Debug, Clone, Copy, PartialEq, Eq)]
pub struct IntegerPoint {
    pub x: i32,
    pub y: i32,
    ghost x_within: { Within 10000 x },
    ghost y_within: { Within 10000 y },
}

// A point whose coordinates have both parts.
#[derive(Debug, Clone, Copy, PartialEq, Eq)]
pub struct QuadraticPoint {
    pub x: Packed,
    pub y: Packed,
}
