//! What is known of a run that is over.

ghost use Rattle.bc_serial.specs.Laws.{RunsFromStart, StopsTell, WorkersTell};

/// A run from the start that has finished in a sound book is the serial run of its program.
pub fn runs_from_start()
    ensures { RunsFromStart }
{}

/// The stop of a sound book whose workers have no invocation tells the truth, and its history replays to its store.
pub fn stops_tell()
    ensures { StopsTell }
{}

/// So it is of each run of the core machine, from its start, whatever its workers did, and in which order.
pub fn workers_tell()
    ensures { WorkersTell }
{}
