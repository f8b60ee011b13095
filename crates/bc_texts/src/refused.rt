// The kinds of faults of a program's text.

/// Why a text is refused.
#[derive(Clone, Copy, Debug, PartialEq, Eq)]
pub enum RefusedKind {
    BadByte,
    OpenComment,
    OpenText,
    NumberRange,
    Unexpected,
    TooDeep,
    Twice,
    TooMany,
    Unknown,
    Mismatch,
    Arity,
    Fixed,
    Misplaced,
    NoReturn,
}
