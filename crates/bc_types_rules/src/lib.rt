//! The rules of checking: which program a tree stands for, or which fault comes first.
#![tactic(auto)]

pub mod examples;
pub mod laws;
pub mod numbering;
