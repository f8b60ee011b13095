//! The data of Bristlecone: values, bodies, invocations, changes, and programs.
#![tactic(auto)]

pub mod ids;
pub mod list;
pub mod program;
pub mod run;
pub mod task_set;
pub mod text;
pub mod token;
pub mod tree;
