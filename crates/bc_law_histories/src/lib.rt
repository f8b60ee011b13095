//! Along each history of a well typed program the store fits, and no entry's run is stuck.
#![tactic(auto)]

ghost use Rattle.bc_law_histories.specs.Laws.{StartFits, ReplayFits, EntriesRun, MixedFits};

/// The store at the start fits each well typed program.
pub fn start_fits()
    ensures { StartFits }
{}

/// So does the last store of a history, if the first one does.
pub fn replay_fits()
    ensures { ReplayFits }
{}

/// The run of an entry of a history is not stuck in the store before it.
pub fn entries_run()
    ensures { EntriesRun }
{}

/// The last store of a history fits with older bodies of its objects too.
pub fn mixed_fits()
    ensures { MixedFits }
{}
