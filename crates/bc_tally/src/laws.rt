// The law of counts.

ghost use Rattle.bc_tally.specs.Laws.{NoneIsNamed};

/// Lists don't name an object whose count is there and 0.
pub fn none_is_named()
    ensures { NoneIsNamed }
{}
