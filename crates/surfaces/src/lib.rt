// The surfaces that a mesh by formula and the layers mean, and why each is sound.
#![tactic(auto)]

pub mod laws;
