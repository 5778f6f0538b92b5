// The taut string of a row of portals: what it is, how the funnel finds it, and its laws.
#![tactic(auto)]

pub mod laws;

// Left or right, as whoever walks through the portals has it.
#[derive(Clone, Copy, PartialEq, Eq, Debug)]
pub enum Side {
    Left,
    Right,
}
