//! How often each object is named by some lists of objects.
#![tactic(auto)]

mod counts;
pub mod laws;
pub mod tally;
