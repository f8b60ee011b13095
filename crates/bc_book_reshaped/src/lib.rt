//! The objects that a commit reshapes (their kind, flags or tags change, or they are new), and the parameter sets brought to the
//! next store and back.
#![tactic(auto)]

pub mod laws;
pub mod reshaped;
pub mod sets;
mod shape;
