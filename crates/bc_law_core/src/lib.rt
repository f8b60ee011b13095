//! What is known of single runs of an accepted program, and that therefore the machine is sound in each state.
#![tactic(auto)]

ghost use Rattle.bc_book_events.specs.SoundCore.{RunLaws};
ghost use Rattle.bc_law_core.specs.Areas.{AreasKeepSound, LocalEnds};
ghost use Rattle.bc_law_core.specs.Laws.{CommitsLeaveFailures, CoreIsSound};

/// A history leads to a store that fits, an exit writes objects that it touched, and a failure stands where a commit changes
/// nothing that it touched.
pub fn run_laws()
    ensures { RunLaws }
{}

/// Each state that the machine reaches is sound.
pub fn core_is_sound()
    ensures { CoreIsSound }
{}

/// The failures that a commit leaves still stand.
pub fn commits_leave_failures()
    ensures { CommitsLeaveFailures }
{}

/// An area that is at its end, over bodies that a book's store has, ends so in this store.
pub fn local_ends()
    ensures { LocalEnds }
{}

/// A book stays sound where an area at its end is committed or is a failure, whatever has moved meanwhile.
pub fn areas_keep_sound()
    ensures { AreasKeepSound }
{}
