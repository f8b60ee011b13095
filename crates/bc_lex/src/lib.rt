//! The tokens of a program's text, or its first lexical fault.
#![tactic(auto)]

mod classes;
pub mod laws;
mod lexer;
mod piece;
mod scan;
mod spelling;

pub use lexer::{LexFault, tokens};
