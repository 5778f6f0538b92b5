// What every other crate speaks of: numbers of triangles, vertices and half-edges, and refusals.
#![tactic(auto)]

pub mod ids;
pub mod refusals;
