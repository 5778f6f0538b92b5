// Exact numbers p + q√2 of the sizes that points and measures have. The size stands in the type, so that no operation can overflow and none asks anything of its caller.
#![tactic(auto)]

ghost use Rattle.std.specs.Prelude.{◌<◌, ◌^◌};
ghost use Rattle.algebra.specs.Bounds.{Within};

pub mod numbers;
pub mod offsets;
pub mod order;
pub mod packing;
pub mod products;
pub mod text;

// A number p + q√2 with both parts from -MOST to MOST; 64 bits hold the opposites of these too.
#[derive(Debug, Clone, Copy, PartialEq, Eq)]
pub struct Surd<const MOST: u64> {
    pub p: i64,
    pub q: i64,
    ghost most_fits: { MOST < 2 ^ 63 },
    ghost p_within: { Within MOST p },
    ghost q_within: { Within MOST q },
}

// A coordinate of a point.
pub type Coordinate = Surd<10_000>;

// A coordinate as a point keeps it, with parts of 32 bits: so a row of points takes no more room than the numbers that it was made of.
#[derive(Debug, Clone, Copy, PartialEq, Eq)]
pub struct Packed {
    pub p: i32,
    pub q: i32,
    ghost p_within: { Within 10000 p },
    ghost q_within: { Within 10000 q },
}

// A difference of two coordinates.
pub type Offset = Surd<20_000>;

// A product of two offsets.
pub type Area = Surd<1_200_000_000>;

// Room for the measures of everything that a mesh holds.
pub type Quadratic = Surd<1_000_000_000_000_000_000>;

// The differences in x and y between two points.
#[derive(Debug, Clone, Copy, PartialEq, Eq)]
pub struct Step {
    pub dx: Offset,
    pub dy: Offset,
}
