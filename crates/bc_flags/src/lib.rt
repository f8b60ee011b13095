//! Guards of task parameters as trees of tests of a mask.
#![tactic(auto)]

pub mod guard;
