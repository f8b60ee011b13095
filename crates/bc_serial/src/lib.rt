//! The run of one thread.
#![tactic(auto)]

pub mod finish;
pub mod laws;
mod machine;
mod turn;
