//! What the parameter sets of a run are made of: ascending sets of objects, the places of a task with theirs, and an index
//! of the tag instances that objects carry.
#![tactic(auto)]

pub mod id_set;
mod ordered;
pub mod place;
pub mod tag_index;
