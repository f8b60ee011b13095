//! From programs to instructions.
#![tactic(auto)]

mod code;
mod statements;
mod units;

pub use code::generate;
