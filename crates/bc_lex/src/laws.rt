// Laws of the definition. Each function is a statement that its contract proves, and does nothing.

ghost use Rattle.bc_lex.specs.Laws.{OneList, OneFault, NotBoth, TokensOrFault, TokensInOrder, TokensWithin};

/// A text has at most one list of tokens.
pub fn one_list()
    ensures { OneList }
{}

/// A text has at most one first fault, at one place.
pub fn one_fault()
    ensures { OneFault }
{}

/// No text has tokens and a fault.
pub fn not_both()
    ensures { NotBoth }
{}

/// Every text has tokens or a fault.
pub fn tokens_or_fault()
    ensures { TokensOrFault }
{}

/// The tokens of a text stand in order, each at its place, and the end of the text is the last.
pub fn tokens_in_order()
    ensures { TokensInOrder }
{}

/// Each token of a text lies within the text and is spelled by its bytes.
pub fn tokens_within()
    ensures { TokensWithin }
{}
