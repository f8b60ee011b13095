//! The search for what a commit appends to the pending list.
#![tactic(auto)]

mod count;
pub mod drops;
pub mod find;
mod search;
mod sorted;
