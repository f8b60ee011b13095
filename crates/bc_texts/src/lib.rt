//! The texts that the program writes beside a program's output.
#![tactic(auto)]

pub mod refused;
pub mod texts;
