// Worked examples of checking.

ghost use Rattle.bc_types_rules.specs.CheckExamples.{OrderExamples, FaultExamples};
ghost use Rattle.bc_types_rules.specs.AcceptExamples.{AcceptExamples, LeavingExamples, LimitExamples};

/// The first of two faults is what the examples say.
pub fn order_examples_hold()
    ensures { OrderExamples }
{}

/// A single fault is where the examples say.
pub fn fault_examples_hold()
    ensures { FaultExamples }
{}

/// These programs are accepted.
pub fn accept_examples_hold()
    ensures { AcceptExamples }
{}

/// One more than a limit is too many.
pub fn limit_examples_hold()
    ensures { LimitExamples }
{}

/// Which bodies surely leave.
pub fn leaving_examples_hold()
    ensures { LeavingExamples }
{}
