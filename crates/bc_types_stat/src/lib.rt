//! Checking of statements and bodies: their code, or their first fault.
#![tactic(auto)]

mod assignment;
mod exit;
mod guards;
mod leaves;
mod lookups;
mod methods;
mod params;
mod print;
mod statements;
mod task_scope;
mod tasks;

pub use guards::guard;
pub use leaves::all_leave;
pub use methods::{maker, method};
pub use statements::{block, statement};
pub use tasks::task;
