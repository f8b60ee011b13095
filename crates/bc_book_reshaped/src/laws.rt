//! What holds of reshaped objects, each law the contract of a call that does nothing.

ghost use Rattle.bc_book_reshaped.specs.Laws.{ReshapedAreAll, SameShape};

/// Where changes are applied, no other objects change their kind, flags or tags than the reshaped ones.
pub fn reshaped_are_all()
    ensures { ReshapedAreAll }
{}

/// The sets are those of any look-up that finds bodies of the same kinds, flags and tags.
pub fn same_shape()
    ensures { SameShape }
{}
