// Why a program isn't accepted.

ghost use Rattle.std.specs.Prelude.{◌≡◌};
ghost use Rattle.bc_names.specs.declared.fault.TypeFault.TheVariants.{Memory};

use bc_data::run::Place;
use std::alloc::{AllocError, AllocFailed};
use thiserror::Error;

/// What is wrong at a place of a program.
#[derive(Clone, Copy, Debug, PartialEq, Eq)]
pub enum TypeKind {
    Twice,
    TooMany,
    Unknown,
    Mismatch,
    Arity,
    Fixed,
    Misplaced,
    NoReturn,
}

/// The first fault of a program by the order of checking, or want of memory.
#[derive(Debug, Drop, Error)]
pub enum TypeFault {
    #[error("type fault")]
    Refused { kind: TypeKind, at: Place },
    #[error("out of memory")]
    Memory,
}

impl From<AllocError> for TypeFault {
    ghost from_gives = { λ _ e. e ≡ Memory };

    fn from(_: AllocError) -> TypeFault {
        TypeFault::Memory
    }
}

impl<T: Drop> From<AllocFailed<T>> for TypeFault {
    ghost from_gives = { λ _ e. e ≡ Memory };

    fn from(_: AllocFailed<T>) -> TypeFault {
        TypeFault::Memory
    }
}
