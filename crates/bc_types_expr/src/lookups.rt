// What a name means where it is written, or the fault that it doesn't.

ghost use Rattle.std.specs.Prelude.{◌≡◌};
ghost use Rattle.bc_types_rules.specs.Got.{find};
ghost use Rattle.bc_types_rules.specs.Context.{array_or_one, shape_at, tag_variable_at};
ghost use Rattle.bc_names.specs.Answers.{Answers};
ghost use Rattle.bc_names.specs.declared.fault.TypeKind.TheVariants.{Unknown};
ghost use Rattle.bc_types_rules.specs.Got as rules;
ghost use Rattle.bc_types_expr.specs.Looks.{looks};

use crate::scope::{Meaning, Scope};
use crate::table::Table;
use bc_data::program::Shape;
use bc_data::run::Place;
use bc_data::tree::{Base, Named, TypeText};
use bc_names::{TypeFault, TypeKind};

/// The class of this name, which is written at a place.
pub fn class_at(table: &Table, name: &[u8], at: Place) -> Result<u32, TypeFault>
    ensures { Answers result (λ c. c) (find ((looks table.now).class_of name.now) rules.Unknown at) }
{
    match table.class(name) {
        Some(class) => Ok(class),
        None => Err(TypeFault::Refused {
            kind: TypeKind::Unknown,
            at,
        }),
    }
}

/// A flag of a class.
pub fn flag_at(table: &Table, class: u32, x: &Named) -> Result<u32, TypeFault>
    ensures { Answers result (λ f. f) (find ((looks table.now).flag_of class x.now.name) rules.Unknown x.now.at) }
{
    match table.flag(class, x.name.as_slice()) {
        Some(flag) => Ok(flag),
        None => Err(TypeFault::Refused {
            kind: TypeKind::Unknown,
            at: x.at,
        }),
    }
}

/// A tag variable in scope.
pub fn variable_at(scope: &Scope, x: &Named) -> Result<u32, TypeFault>
    ensures { Answers result (λ v. v) (tag_variable_at scope.now x.now) }
{
    match scope.find(x) {
        Some(Meaning::Tag(variable, _)) => Ok(variable),
        Some(_) => Err(TypeFault::Refused {
            kind: TypeKind::Mismatch,
            at: x.at,
        }),
        None => Err(TypeFault::Refused {
            kind: TypeKind::Unknown,
            at: x.at,
        }),
    }
}

fn choose(many: bool, array: Shape, one: Shape) -> Shape
    ensures { result ≡ array_or_one many array one }
{
    if many { array } else { one }
}

/// The shape of a type where it is written: its class is declared.
pub fn shape_of(table: &Table, kind: &TypeText) -> Result<Shape, TypeFault>
    ensures { Answers result (λ s. s) (shape_at (looks table.now) kind.now) }
{
    match &kind.base {
        Base::Int => Ok(choose(kind.many, Shape::Ints, Shape::Int)),
        Base::Bool => Ok(choose(kind.many, Shape::Bools, Shape::Bool)),
        Base::Class(name) => {
            let class = class_at(table, name.as_slice(), kind.at)?;
            Ok(choose(kind.many, Shape::Objects(class), Shape::Class(class)))
        }
    }
}
