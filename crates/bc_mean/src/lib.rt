//! The source meaning: stores, enabled invocations, what an invocation does, and the serial run.
#![tactic(auto)]

pub mod commit;
pub mod enabledness;
pub mod examples;
pub mod laws;
pub mod listing;
pub mod plain;
pub mod startup;

pub use commit::apply;
pub use enabledness::is_enabled;
pub use listing::all_enabled;
pub use startup::start;
