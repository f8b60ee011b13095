//! What holds of the sets of a store, each law the contract of a call that does nothing.

ghost use Rattle.bc_params.specs.Laws.{SameLook, MoreTypes, OneSets, PlacesOfParams, PutBack};

/// The sets are those of any look-up that finds the same bodies.
pub fn same_look()
    ensures { SameLook }
{}

/// Where each instance that is carried has a type, further types change nothing.
pub fn more_types()
    ensures { MoreTypes }
{}

/// The sets of the same bodies and instances are the same.
pub fn one_sets()
    ensures { OneSets }
{}

/// A task has a place for each parameter, of its class.
pub fn places_of_params()
    ensures { PlacesOfParams }
{}

/// The sets after an update and the one back are those of the bodies as they were.
pub fn put_back()
    ensures { PutBack }
{}
