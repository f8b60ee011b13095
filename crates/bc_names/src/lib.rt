//! The numbers of a program's names.
#![tactic(auto)]

mod fault;
mod members;
mod names;
mod space;

pub use fault::{TypeFault, TypeKind};
pub use names::{Names, number};
