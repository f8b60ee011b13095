// Expressions.

ghost use Rattle.bc_data.specs.SourceTree.{NoArg};
ghost use Rattle.bc_data.specs.View.{view, views};
ghost use Rattle.bc_types_rules.specs.Expressions.{infer, infer_all};
ghost use Rattle.bc_types_rules.specs.Statements.{infer_call};
ghost use Rattle.bc_names.specs.Answers.{Answers};
ghost use Rattle.bc_types_expr.specs.Contexts.{context_of};
ghost use Rattle.bc_types_expr.specs.Expressions.{arguments_seen, called_seen, typed_seen};
ghost use Rattle.bc_types_expr.specs.Tails.{named, this_object};

use crate::calls::{call_of, value_of_call};
use crate::inside::Inside;
use crate::making::{array, object};
use crate::members::{element, field, length};
use crate::operators::{minus, not, operation};
use crate::scope::{Meaning, Scope};
use crate::typed::{Argument, Arguments, Called, Typed, place_of};
use crate::value_type::ValueType;
use bc_data::program::{Expr, Shape};
use bc_data::run::Place;
use bc_data::tree::{ExprText, Named};
use bc_names::{TypeFault, TypeKind};
use std::alloc::Global;

// A name: a slot in scope.
fn name(scope: &Scope, x: &Named) -> Result<Typed, TypeFault>
    ensures { Answers result typed_seen (named scope.now x.now) }
{
    match scope.find(x) {
        Some(Meaning::Slot(slot, shape)) => Ok(Typed {
            code: Expr::Local(slot),
            value_type: ValueType::Known(shape),
        }),
        Some(Meaning::Parameter(slot, class)) => Ok(Typed {
            code: Expr::Local(slot),
            value_type: ValueType::Known(Shape::Class(class)),
        }),
        Some(Meaning::Tag(_, _)) => Err(TypeFault::Refused {
            kind: TypeKind::Mismatch,
            at: x.at,
        }),
        None => Err(TypeFault::Refused {
            kind: TypeKind::Unknown,
            at: x.at,
        }),
    }
}

fn this(me: Option<u32>, at: Place) -> Result<Typed, TypeFault>
    ensures { Answers result typed_seen (this_object me at) }
{
    match me {
        Some(class) => Ok(Typed {
            code: Expr::Local(0),
            value_type: ValueType::Known(Shape::Class(class)),
        }),
        None => Err(TypeFault::Refused {
            kind: TypeKind::Misplaced,
            at,
        }),
    }
}

/// The code and the type of an expression, or its first fault.
#[cycle(expressions)]
pub fn expression(
    alloc: Global,
    inside: &Inside<'_>,
    scope: &Scope,
    e: &ExprText,
) -> Result<Typed, TypeFault>
    ensures { Answers result typed_seen (infer (context_of inside.now) scope.now (view e.now)) }
{
    match e {
        ExprText::Int(_, n) => Ok(Typed {
            code: Expr::Int(*n),
            value_type: ValueType::Known(Shape::Int),
        }),
        ExprText::Truth(_, b) => Ok(Typed {
            code: Expr::Truth(*b),
            value_type: ValueType::Known(Shape::Bool),
        }),
        ExprText::Null(_) => Ok(Typed {
            code: Expr::Null,
            value_type: ValueType::Known(Shape::Null),
        }),
        ExprText::This(at) => this(inside.me, *at),
        ExprText::Name(x) => name(scope, x),
        ExprText::Group(_, inner) => expression(alloc, inside, scope, inner),
        ExprText::Neg(at, inner) => {
            let x = expression(alloc, inside, scope, inner)?;
            minus(alloc, *at, x)
        }
        ExprText::Not(at, inner) => {
            let x = expression(alloc, inside, scope, inner)?;
            not(alloc, *at, x)
        }
        ExprText::Two(at, op, left, right) => {
            let x = expression(alloc, inside, scope, left)?;
            let y = expression(alloc, inside, scope, right)?;
            operation(alloc, *at, *op, x, y)
        }
        ExprText::Field(at, object, x) => {
            let o = expression(alloc, inside, scope, object)?;
            field(alloc, inside.table, *at, o, x)
        }
        ExprText::Length(at, array) => {
            let x = expression(alloc, inside, scope, array)?;
            length(alloc, *at, x)
        }
        ExprText::Elem(at, array, index) => {
            let x = expression(alloc, inside, scope, array)?;
            let y = expression(alloc, inside, scope, index)?;
            element(alloc, *at, x, y)
        }
        ExprText::Call(at, object, m, args) => {
            let o = expression(alloc, inside, scope, object)?;
            let ys = arguments(alloc, inside, scope, args)?;
            value_of_call(alloc, inside.table, *at, o, m, ys)
        }
        ExprText::Make(at, x, args, tweaks) => {
            let ys = arguments(alloc, inside, scope, args)?;
            object(alloc, inside.table, scope, *at, x, ys, tweaks)
        }
        ExprText::Array(at, t, size) => {
            let x = expression(alloc, inside, scope, size)?;
            array(alloc, inside.table, *at, t, x)
        }
    }
}

// Arguments, from left to right.
#[cycle(expressions)]
fn arguments(
    alloc: Global,
    inside: &Inside<'_>,
    scope: &Scope,
    es: &[ExprText],
) -> Result<Arguments, TypeFault>
    ensures { Answers result arguments_seen (infer_all (context_of inside.now) scope.now (views es.now NoArg)) }
{
    let mut codes = Vec::new(alloc);
    let mut each = Vec::new(alloc);
    for e in es {
        let x = expression(alloc, inside, scope, e)?;
        codes.push(x.code)?;
        each.push(Argument {
            value_type: x.value_type,
            at: place_of(e),
        })?;
    }
    Ok(Arguments { codes, each })
}

/// A call that stands as a statement, which may be without a result.
pub fn call(
    alloc: Global,
    inside: &Inside<'_>,
    scope: &Scope,
    e: &ExprText,
) -> Result<Called, TypeFault>
    ensures { Answers result called_seen (infer_call (context_of inside.now) scope.now (view e.now)) }
{
    match e {
        ExprText::Call(at, object, m, args) => {
            let o = expression(alloc, inside, scope, object)?;
            let ys = arguments(alloc, inside, scope, args)?;
            call_of(alloc, inside.table, *at, o, m, ys)
        }
        _ => {
            let x = expression(alloc, inside, scope, e)?;
            Ok(Called {
                code: x.code,
                result: Some(x.value_type),
            })
        }
    }
}
