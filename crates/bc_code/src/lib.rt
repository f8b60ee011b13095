//! The instructions of the stack machine, the rule of each, where the instructions of a program stand, and their listing.
#![tactic(auto)]

pub mod code;
pub mod listing;
