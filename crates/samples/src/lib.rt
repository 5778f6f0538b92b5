// Small users of the crates below, proved from their contracts alone.
#![tactic(auto)]

pub mod lists;
pub mod spurs;
