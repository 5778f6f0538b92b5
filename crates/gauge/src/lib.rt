// Gauges: how far a step is, as the largest value of a row of linear forms.
#![tactic(auto)]

pub mod gauges;
pub mod laws;
pub mod rows;
pub mod supplied;
pub mod text;

// The form (fp + fq√2, hp + hq√2).
#[derive(Debug, Clone, Copy, PartialEq, Eq)]
pub struct LinearForm {
    pub fp: i8,
    pub fq: i8,
    pub hp: i8,
    pub hq: i8,
}

// An exact length p + q√2. 128 bits hold the length of every row of points that memory can hold.
#[derive(Debug, Clone, Copy, PartialEq, Eq)]
pub struct Length {
    pub p: i128,
    pub q: i128,
}
