// What a mesh means, when it is sound, and the test of lists that says which.
#![tactic(auto)]

pub mod laws;
mod limited;
pub mod lists;
mod marks;
mod readable;
mod walkable;
