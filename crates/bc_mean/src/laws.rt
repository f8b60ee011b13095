// The laws of the definitions.

ghost use Rattle.bc_mean.specs.Laws.{StrictlyOrdered, AllAscending, AllExact, OneAscending, NamedAlone, ReplayPrefix, EndsOnce, KeepsSound};

/// Invocations have a strict total order.
pub fn strictly_ordered()
    ensures { StrictlyOrdered }
{}

/// All enabled invocations stand in order, each once.
pub fn all_ascending()
    ensures { AllAscending }
{}

/// They are exactly the enabled ones.
pub fn all_exact()
    ensures { AllExact }
{}

/// An ascending list is determined by its members.
pub fn one_ascending()
    ensures { OneAscending }
{}

/// Whether an invocation is enabled depends on the objects and instances that it names alone.
pub fn named_alone()
    ensures { NamedAlone }
{}

/// A history that replays does so up to each of its entries.
pub fn replay_prefix()
    ensures { ReplayPrefix }
{}

/// A run ends in one way, if at all.
pub fn ends_once()
    ensures { EndsOnce }
{}

/// A run is sound at its start, after each step, and so at its end.
pub fn keeps_sound()
    ensures { KeepsSound }
{}
