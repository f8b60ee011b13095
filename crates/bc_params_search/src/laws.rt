// The search by sets and the enabled invocations of a store.

ghost use Rattle.bc_params_search.specs.Laws.{EnabledBySets, TuplesAreEnabled};

/// Sets of a store tell what is enabled in it.
pub fn enabled_by_sets()
    ensures { EnabledBySets }
{}

/// The enabled invocations that name an object, in the list of all that are enabled, are what a search finds the first of.
pub fn tuples_are_enabled()
    ensures { TuplesAreEnabled }
{}
