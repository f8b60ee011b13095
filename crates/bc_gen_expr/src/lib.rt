//! The code of expressions.
#![tactic(auto)]

pub mod emit;
mod expressions;
mod pieces;

pub use expressions::expression;
