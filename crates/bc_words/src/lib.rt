//! Command lines.
#![tactic(auto)]

pub mod commands;
