//! The failures: the invocations that faulted, each with its fault and the objects that it touched.
#![tactic(auto)]

pub mod entry;
pub mod failures;
pub mod laws;
mod order;
