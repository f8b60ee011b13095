//! Checking of programs: the program of an accepted tree, or its first fault.
#![tactic(auto)]

mod class;
mod program;
mod types;
mod walk;

pub use bc_names::{TypeFault, TypeKind};
pub use program::check;
