//! The store of a run, kept: its objects' bodies with the sum of their cells, the types of its tag instances, and its
//! output. Changes are published in place, in memory that was reserved before.
#![tactic(auto)]

mod publish;
mod resolve;
mod startup;
pub mod store;
mod vectors;
