//! The core machine: the state that workers share, its events with their guards and effects, and its runs.
#![tactic(auto)]

pub mod answers;
pub mod laws;

pub use answers::{Begun, Commit, Failing, Taken};
