//! Generated code does what the source meaning says.
#![tactic(auto)]

ghost use Rattle.bc_law_code.specs.Expressions.{CallRuns, ExpressionRuns};
ghost use Rattle.bc_law_code.specs.Laws.{AskedInOrder, CodeIsNeverStuck, CodeOverMore, CodeRuns};

/// The code of a program, over any bodies, comes to what the program's run over them comes to, in a bounded number of
/// instructions.
pub fn code_runs()
    ensures { CodeRuns }
{}

/// From any state before the code of an expression, the machine comes to the value and the work that the meaning
/// gives, or to its fault.
pub fn expression_runs()
    ensures { ExpressionRuns }
{}

/// The code of a call of a method without a result does what the call does, and leaves the stack as it was.
pub fn call_runs()
    ensures { CallRuns }
{}

/// The code of a program always has an instruction, and operands for it.
pub fn code_is_never_stuck()
    ensures { CodeIsNeverStuck }
{}

/// Where the machine goes on over some bodies it does the same over more.
pub fn code_over_more()
    ensures { CodeOverMore }
{}

/// Where each body is given when it is asked for, the bodies given are those that the run touches, in its order.
pub fn asked_in_order()
    ensures { AskedInOrder }
{}
