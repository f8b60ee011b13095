// What a name means where it is written.

ghost use Rattle.std.specs.Prelude.{◌≡◌};
ghost use Rattle.bc_types_rules.specs.Got.{find, Unknown};
ghost use Rattle.bc_names.specs.Answers.{Answers};
ghost use Rattle.bc_types_expr.specs.Looks.{looks};

use bc_data::tree::Named;
use bc_names::{TypeFault, TypeKind};
use bc_types_expr::Table;

/// A tag type.
pub fn tag_type_at(table: &Table, x: &Named) -> Result<u32, TypeFault>
    ensures { Answers result (λ k. k) (find ((looks table.now).tag_type_of x.now.name) Unknown x.now.at) }
{
    match table.tag_type(x.name.as_slice()) {
        Some(tag_type) => Ok(tag_type),
        None => Err(TypeFault::Refused {
            kind: TypeKind::Unknown,
            at: x.at,
        }),
    }
}
