//! A machine that runs one invocation over the bodies given so far, and asks for the next one.
#![tactic(auto)]

pub mod machine;
pub mod plain;
mod run;
