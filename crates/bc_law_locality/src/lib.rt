//! The meaning of an invocation is local: it depends on the objects that it touches alone.
#![tactic(auto)]

ghost use Rattle.bc_law_locality.specs.Laws.{ChangesAreTouched, RunsAreLocal, RunsSay, TouchedFromTheParameters, WorkGrows};

/// A run over some bodies is the run over more of them, or asks for the next body that the longer run touches.
pub fn runs_say()
    ensures { RunsSay }
{}

/// An invocation comes to the same in two stores that agree on the objects that it touches.
pub fn runs_are_local()
    ensures { RunsAreLocal }
{}

/// What an invocation has done stays done.
pub fn work_grows()
    ensures { WorkGrows }
{}

/// The objects that a commit writes are among those that the invocation touched.
pub fn changes_are_touched()
    ensures { ChangesAreTouched }
{}

/// The objects that an invocation touched begin with those of its parameters, and each is there once.
pub fn touched_from_the_parameters()
    ensures { TouchedFromTheParameters }
{}
