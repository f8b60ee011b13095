//! What an invocation does, computed by the definition itself: plain and slow, the yardstick of every other way to run a program.
#![tactic(auto)]

mod acting;
mod evaluate;
mod execute;
mod finish;
mod frame;
mod halt;
mod making;
mod objects;
mod operators;
mod outcome;
mod run;
mod stage;
mod values;

pub use outcome::run_tree;
