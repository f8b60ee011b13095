// The laws of lists of invocations.

ghost use Rattle.bc_pending.specs.Laws.{FilterOnce, FilterExact, MoveExact};

/// What is left of a list by a test stands there once if it did before.
pub fn filter_once()
    ensures { FilterOnce }
{}

/// What is left of a list by a test are exactly the listed ones that pass it.
pub fn filter_exact()
    ensures { FilterExact }
{}

/// One that moves to a worker was listed. Where each stood there once, exactly the others are left, each once.
pub fn move_exact()
    ensures { MoveExact }
{}
