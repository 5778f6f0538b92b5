// A mesh as lines describe it: rows of plain numbers, the lists that they make, and layers over the mesh.
#![tactic(auto)]

pub mod layers;
pub mod lists;
pub mod rows;
