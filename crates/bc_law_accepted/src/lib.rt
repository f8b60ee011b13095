//! An accepted program is well typed.
#![tactic(auto)]

ghost use Rattle.bc_law_accepted.specs.Laws.{AcceptedIsWellTyped};

/// The program of a tree that the grammar gives to some text keeps what every value of `Program` keeps.
pub fn accepted_is_well_typed()
    ensures { AcceptedIsWellTyped }
{}
