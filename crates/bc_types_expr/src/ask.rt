// What is asked for at a place.

ghost use Rattle.std.specs.Prelude.{◌≡◌, IsTrue, OnOk};
ghost use Rattle.bc_types_rules.specs.Got.{ask};
ghost use Rattle.bc_names.specs.Answers.{Answers, kind_of};

use bc_data::run::Place;
use bc_names::{TypeFault, TypeKind};

/// The fault of this kind, where something doesn't hold.
pub fn ask_for(holds: bool, kind: TypeKind, at: Place) -> Result<(), TypeFault>
    ensures answers { Answers result (λ _. tt) (ask holds (kind_of kind) at) }
    ensures held { OnOk result (IsTrue holds) }
{
    if holds {
        Ok(())
    } else {
        Err(TypeFault::Refused { kind, at })
    }
}
