// Words over letters that have opposites, and their free reduction: one text for every sort of letter.
#![tactic(auto)]

pub mod letters;
pub mod reducing;
pub mod sorts;
