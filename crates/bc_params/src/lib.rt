//! The parameter sets of a run: at each place of a task the objects that fit, and which objects carry which tag instances.
#![tactic(auto)]

mod bindings;
mod empty;
pub mod enabled;
pub mod laws;
pub mod params;
mod places;
mod room;
