//! A run of a well typed program over a store that fits it is never stuck, and what it commits keeps the store fitting.
#![tactic(auto)]

ghost use Rattle.bc_law_soundness.specs.Laws.{NeverStuck, KeepsFit, CommitsHaveRoom};

/// The body of an enabled invocation's task exits or faults. It never misses an object, a slot or a cell, and never meets a
/// value of the wrong shape.
pub fn never_stuck()
    ensures { NeverStuck }
{}

/// What an enabled invocation commits gives a store that fits again.
pub fn keeps_fit()
    ensures { KeepsFit }
{}

/// The store has room for what an enabled invocation commits.
pub fn commits_have_room()
    ensures { CommitsHaveRoom }
{}
