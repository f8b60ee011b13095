// The laws of failures.

ghost use Rattle.bc_failed.specs.Laws.{OrderAscends, OrderExact, FilterOnce, FilterExact};

/// Where no two failures are of one invocation, each precedes all later ones in the order.
pub fn order_ascends()
    ensures { OrderAscends }
{}

/// The order has exactly the failures.
pub fn order_exact()
    ensures { OrderExact }
{}

/// What is left of failures by a test still has no two of one invocation.
pub fn filter_once()
    ensures { FilterOnce }
{}

/// What is left of failures by a test are exactly those that pass it.
pub fn filter_exact()
    ensures { FilterExact }
{}
