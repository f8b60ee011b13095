// The laws of the book.

ghost use Rattle.bc_book_events.specs.Laws.{AppendedMet, ChangesMove, EnabledCounted, KeepsExact, KeptShort, WritesAreChanges};
ghost use Rattle.bc_book_events.specs.SameRun.{EventsKeepRun, MachineKeepsRun, SameRunComposes};
ghost use Rattle.bc_book_events.specs.SoundCore.{KeepsSoundCore};
ghost use Rattle.bc_book_events.specs.SoundLaws.{CommitMet, EnabledNames, EndsQuiet, KeepsSoundBook, StartIsRoomy};
ghost use Rattle.bc_book_events.specs.Turns.{TurnsAreSteps};
ghost use Rattle.bc_book_events.specs.Untouched.{UntouchedKeeps};

/// Changes move the objects that they write or make, and no others.
pub fn changes_move()
    ensures { ChangesMove }
{}

/// What a commit writes is what it changes.
pub fn writes_are_changes()
    ensures { WritesAreChanges }
{}

/// Objects that no change changed have their bodies, and failures that touched no others are of enabled invocations.
pub fn untouched_keeps()
    ensures { UntouchedKeeps }
{}

/// Of the pending ones only those that name an object that was reshaped can fall out.
pub fn kept_short()
    ensures { KeptShort }
{}

/// Any ascending list of exactly the wanted invocations that are enabled is what a commit appends.
pub fn appended_met()
    ensures { AppendedMet }
{}

/// Whatever happens to the invocation of a worker, the pending list stays exact.
pub fn keeps_exact()
    ensures { KeepsExact }
{}

/// What is enabled can be counted by what is pending, what workers have, and the failures.
pub fn enabled_counted()
    ensures { EnabledCounted }
{}

/// At the start at most one invocation of each task is enabled.
pub fn start_is_roomy()
    ensures { StartIsRoomy }
{}

/// An invocation that is enabled names what is there, and so it does after commits.
pub fn enabled_names()
    ensures { EnabledNames }
{}

/// Each event keeps the book sound.
pub fn keeps_sound_book()
    ensures { KeepsSoundBook }
{}

/// A commit, as it is found from what was reshaped.
pub fn commit_met()
    ensures { CommitMet }
{}

/// Where a sound book has ended with nothing left, every enabled invocation faults in its store.
pub fn ends_quiet()
    ensures { EndsQuiet }
{}

/// Turn by turn a worker that is alone makes the run of one thread.
pub fn turns_are_steps()
    ensures { TurnsAreSteps }
{}

/// By the laws of single runs each state that the machine reaches is sound.
pub fn keeps_sound_core()
    ensures { KeepsSoundCore }
{}

/// Each event of the book keeps the program, the input, the limit and the number of workers.
pub fn events_keep_run()
    ensures { EventsKeepRun }
{}

/// So does each event of the machine, and each state that it reaches has those of its start.
pub fn machine_keeps_run()
    ensures { MachineKeepsRun }
{}

/// So they stay over any row of events: being of the same run is reflexive and transitive.
pub fn same_run_composes()
    ensures { SameRunComposes }
{}
