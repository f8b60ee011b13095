//! The law that what an invocation commits can be published in the kept store.
#![tactic(auto)]

ghost use Rattle.bc_law_publishing.specs.Laws.{CommitsCanBePublished};

/// A kept store can publish what an enabled invocation commits.
pub fn commits_can_be_published()
    ensures { CommitsCanBePublished }
{}
