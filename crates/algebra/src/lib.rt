// Exact numbers p + q√2: what they are, their laws, and their sign.
#![tactic(auto)]

pub mod laws;
pub mod signs;

#[derive(Debug, Clone, Copy, PartialEq, Eq)]
pub enum Sign {
    Minus,
    Zero,
    Plus,
}
