// The canonical text of a program's tree.
#![tactic(auto)]

mod expression;
mod laws;
mod parts;
mod program;
mod statement;

pub use laws::{literals_are_read, places_are_not_written};
pub use program::print_tree;
