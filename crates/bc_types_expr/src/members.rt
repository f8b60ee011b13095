// Fields, lengths and elements.

ghost use Rattle.std.specs.Prelude.{◌≡◌};
ghost use Rattle.bc_types_rules.specs.Context.{class_before};
ghost use Rattle.bc_names.specs.Answers.{Answers};
ghost use Rattle.bc_types_expr.specs.Types.{type_seen};
ghost use Rattle.bc_types_expr.specs.Looks.{looks};
ghost use Rattle.bc_types_expr.specs.Expressions.{typed_seen};
ghost use Rattle.bc_types_expr.specs.Tails.{element_at, field_of, length_of};

use crate::ask::ask_for;
use crate::table::Table;
use crate::typed::Typed;
use crate::value_type::ValueType;
use bc_data::program::{Expr, Shape};
use bc_data::run::Place;
use bc_data::tree::Named;
use bc_names::{TypeFault, TypeKind};
use std::alloc::Global;

/// The class of what stands before a `.` at a place and a member's name.
pub fn object_class(value_type: &ValueType, at: Place, x: &Named) -> Result<u32, TypeFault>
    ensures { Answers result (λ c. c) (class_before (type_seen value_type.now) at x.now) }
{
    match value_type {
        ValueType::Known(Shape::Class(class)) => Ok(*class),
        ValueType::Undeclared(false, _) => Err(TypeFault::Refused {
            kind: TypeKind::Unknown,
            at: x.at,
        }),
        _ => Err(TypeFault::Refused {
            kind: TypeKind::Mismatch,
            at,
        }),
    }
}

/// A field, once its object is known.
pub fn field(
    alloc: Global,
    table: &Table,
    at: Place,
    o: Typed,
    x: &Named,
) -> Result<Typed, TypeFault>
    ensures { Answers result typed_seen (field_of (looks table.now) at (typed_seen o) x.now) }
{
    let class = object_class(&o.value_type, at, x)?;
    match table.field(class, x.name.as_slice()) {
        Some((field, value_type)) => {
            let value_type = value_type.copy(alloc)?;
            Ok(Typed {
                code: Expr::Field(at, Box::new(alloc, o.code)?, field),
                value_type,
            })
        }
        None => Err(TypeFault::Refused {
            kind: TypeKind::Unknown,
            at: x.at,
        }),
    }
}

/// A `.length`, once the array is known.
pub fn length(alloc: Global, at: Place, x: Typed) -> Result<Typed, TypeFault>
    ensures { Answers result typed_seen (length_of at (typed_seen x)) }
{
    ask_for(x.value_type.is_array(), TypeKind::Mismatch, at)?;
    Ok(Typed {
        code: Expr::Length(at, Box::new(alloc, x.code)?),
        value_type: ValueType::Known(Shape::Int),
    })
}

/// An element, once the array and the index are known.
pub fn element(alloc: Global, at: Place, x: Typed, y: Typed) -> Result<Typed, TypeFault>
    ensures { Answers result typed_seen (element_at at (typed_seen x) (typed_seen y)) }
{
    match x.value_type.element() {
        Some(value_type) => {
            ask_for(y.value_type.is_int(), TypeKind::Mismatch, at)?;
            let array = Box::new(alloc, x.code)?;
            let index = Box::new(alloc, y.code)?;
            Ok(Typed {
                code: Expr::Elem(at, array, index),
                value_type,
            })
        }
        None => Err(TypeFault::Refused {
            kind: TypeKind::Mismatch,
            at,
        }),
    }
}
