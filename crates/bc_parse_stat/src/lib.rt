//! Readers of statements.
#![tactic(auto)]

pub mod chain;
pub mod exit;
pub mod print;
pub mod row;
pub mod statement;
