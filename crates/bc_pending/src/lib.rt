//! The pending list: the invocations that wait, in order, and the one that each worker holds.
#![tactic(auto)]

pub mod keep;
pub mod laws;
pub mod pending;
mod search;
