// Laws of the rules.

ghost use Rattle.bc_types_rules.specs.Laws.{InferIsHas, HasOne, StateIsDoes, DoesOne, AcceptsIsProgram, OneProgram, ProgramOrFault};

/// The definition gives of an expression exactly what the rules allow.
pub fn infer_is_has()
    ensures { InferIsHas }
{}

/// An expression has at most one type and one code.
pub fn has_one()
    ensures { HasOne }
{}

/// The definition gives of a statement exactly what the rules allow.
pub fn state_is_does()
    ensures { StateIsDoes }
{}

/// A statement has at most one code and one scope behind it.
pub fn does_one()
    ensures { DoesOne }
{}

/// The definition accepts exactly what the rules allow.
pub fn accepts_is_program()
    ensures { AcceptsIsProgram }
{}

/// A text is at most one program.
pub fn one_program()
    ensures { OneProgram }
{}

/// A text is a program or has a first fault, and not both, and has one first fault at most.
pub fn program_or_fault()
    ensures { ProgramOrFault }
{}
