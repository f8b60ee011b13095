// Why a run stops before its end.

ghost use Rattle.std.specs.Prelude.{◌≡◌};
ghost use Rattle.bc_mean_run.specs.declared.halt.Interrupt.TheVariants.{Memory};

use bc_data::run::Fault;
use std::alloc::{AllocError, AllocFailed};

/// A fault; or, which never comes in a run of an accepted program over a store that fits, an object whose body is not
/// known, or a form that has no meaning where it stands.
#[derive(Clone, Copy)]
pub enum Halt {
    Faulted(Fault),
    Missing(u32),
    Wrong,
}

/// A halt of the run, or want of memory.
#[derive(Clone, Copy)]
pub enum Interrupt {
    Halted(Halt),
    Memory,
}

impl From<AllocError> for Interrupt {
    ghost from_gives = { λ _ e. e ≡ Memory };

    fn from(_: AllocError) -> Interrupt {
        Interrupt::Memory
    }
}

impl<T: Drop> From<AllocFailed<T>> for Interrupt {
    ghost from_gives = { λ _ e. e ≡ Memory };

    fn from(_: AllocFailed<T>) -> Interrupt {
        Interrupt::Memory
    }
}
