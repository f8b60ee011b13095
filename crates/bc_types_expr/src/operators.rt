// Operators.

ghost use Rattle.std.specs.Prelude.{◌≡◌};
ghost use Rattle.bc_data.specs.Shapes.{result_shape};
ghost use Rattle.bc_types_rules.specs.Expressions.{takes};
ghost use Rattle.bc_names.specs.Answers.{Answers};
ghost use Rattle.bc_types_expr.specs.Types.{type_seen};
ghost use Rattle.bc_types_expr.specs.Expressions.{typed_seen};
ghost use Rattle.bc_types_expr.specs.Tails.{denied, negated, operated};

use crate::ask::ask_for;
use crate::typed::Typed;
use crate::value_type::ValueType;
use bc_data::program::{Expr, Op, Shape};
use bc_data::run::Place;
use bc_names::{TypeFault, TypeKind};
use std::alloc::Global;

// Whether an operator takes such operands.
fn is_taken(op: Op, a: &ValueType, b: &ValueType) -> bool
    ensures { result ≡ takes op (type_seen a.now) (type_seen b.now) }
{
    match op {
        Op::Or | Op::And => a.is_bool() && b.is_bool(),
        Op::Same | Op::Differ => a.fits(b) || b.fits(a),
        Op::Less
        | Op::LessEq
        | Op::More
        | Op::MoreEq
        | Op::Add
        | Op::Sub
        | Op::Mul
        | Op::Div
        | Op::Rem => a.is_int() && b.is_int(),
    }
}

fn result_of(op: Op) -> Shape
    ensures { result ≡ result_shape op }
{
    match op {
        Op::Or | Op::And | Op::Same | Op::Differ | Op::Less | Op::LessEq | Op::More | Op::MoreEq =>
            Shape::Bool,
        Op::Add | Op::Sub | Op::Mul | Op::Div | Op::Rem => Shape::Int,
    }
}

/// A minus sign, once its operand is known.
pub fn minus(alloc: Global, at: Place, x: Typed) -> Result<Typed, TypeFault>
    ensures { Answers result typed_seen (negated at (typed_seen x)) }
{
    ask_for(x.value_type.is_int(), TypeKind::Mismatch, at)?;
    Ok(Typed {
        code: Expr::Neg(Box::new(alloc, x.code)?),
        value_type: ValueType::Known(Shape::Int),
    })
}

/// A `!`, once its operand is known.
pub fn not(alloc: Global, at: Place, x: Typed) -> Result<Typed, TypeFault>
    ensures { Answers result typed_seen (denied at (typed_seen x)) }
{
    ask_for(x.value_type.is_bool(), TypeKind::Mismatch, at)?;
    Ok(Typed {
        code: Expr::Not(Box::new(alloc, x.code)?),
        value_type: ValueType::Known(Shape::Bool),
    })
}

/// A binary operator, once its operands are known.
pub fn operation(alloc: Global, at: Place, op: Op, x: Typed, y: Typed) -> Result<Typed, TypeFault>
    ensures { Answers result typed_seen (operated at op (typed_seen x) (typed_seen y)) }
{
    ask_for(
        is_taken(op, &x.value_type, &y.value_type),
        TypeKind::Mismatch,
        at,
    )?;
    let left = Box::new(alloc, x.code)?;
    let right = Box::new(alloc, y.code)?;
    Ok(Typed {
        code: Expr::Two(at, op, left, right),
        value_type: ValueType::Known(result_of(op)),
    })
}
