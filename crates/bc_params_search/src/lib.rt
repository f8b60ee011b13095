//! The first enabled invocations that name an object, found by the sets of the tasks' places and the index of tag instances.
#![tactic(auto)]

mod candidates;
pub mod enabled;
mod instances;
pub mod laws;
mod objects;
mod search;
pub mod tuples;

pub use tuples::tuples_with;
