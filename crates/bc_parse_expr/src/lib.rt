//! Readers of tokens and expressions.
#![tactic(auto)]

pub mod actions;
pub mod cursor;
pub mod expression;
