// Assignments.

ghost use Rattle.std.specs.Prelude.{◌≡◌, option_map};
ghost use Rattle.bc_data.specs.SourceTree.{Assign};
ghost use Rattle.bc_data.specs.View.{view};
ghost use Rattle.bc_data.specs.ProgramView.{view_expr, view_program_stat};
ghost use Rattle.bc_types_rules.specs.Statements as rules;
ghost use Rattle.bc_types_rules.specs.Statements.{state};
ghost use Rattle.bc_types_rules.specs.Got.{find, Mismatch};
ghost use Rattle.bc_names.specs.Answers.{Answers};
ghost use Rattle.bc_types_expr.specs.Contexts.{context_of};
ghost use Rattle.bc_types_stat.specs.Bodies.{stated};

use bc_data::program::{Expr, Stat};
use bc_data::run::Place;
use bc_data::tree::ExprText;
use bc_names::{TypeFault, TypeKind};
use bc_types_expr::{Inside, Meaning, Scope, ask_for, expression, place_of};
use std::alloc::Global;

/// Whether a target is the parameter of a task.
fn is_parameter(scope: &Scope, target: &ExprText) -> bool
    ensures { result ≡ rules.is_parameter scope.now (view target.now) }
{
    match target {
        ExprText::Name(x) => matches!(scope.find(x), Some(Meaning::Parameter(_, _))),
        _ => false,
    }
}

/// An assignment to a slot, a field or an element.
fn assignment(target: Expr, value: Expr) -> Option<Stat>
    ensures { option_map view_program_stat result ≡ rules.assignment (view_expr target) (view_expr value) }
{
    match target {
        Expr::Local(slot) => Some(Stat::Set(slot, value)),
        Expr::Field(at, object, field) => Some(Stat::SetField(
            at,
            Box::into_inner(object),
            field,
            value,
        )),
        Expr::Elem(at, array, index) => Some(Stat::SetElem(
            at,
            Box::into_inner(array),
            Box::into_inner(index),
            value,
        )),
        _ => None,
    }
}

fn assigned(target: Expr, value: Expr, at: Place) -> Result<Stat, TypeFault>
    ensures { Answers result view_program_stat (find (rules.assignment (view_expr target) (view_expr value)) Mismatch at) }
{
    match assignment(target, value) {
        Some(code) => Ok(code),
        None => Err(TypeFault::Refused {
            kind: TypeKind::Mismatch,
            at,
        }),
    }
}

/// An assignment: the target, the value, that the target is no parameter, then whether the value fits.
pub fn assign(
    alloc: Global,
    inside: &Inside<'_>,
    scope: &Scope,
    target: &ExprText,
    e: &ExprText,
) -> Result<Stat, TypeFault>
    ensures { Answers result (λ d. stated (view_program_stat d) scope.now) (state (context_of inside.now) scope.now (Assign (view target.now) (view e.now))) }
{
    let place = expression(alloc, inside, scope, target)?;
    let value = expression(alloc, inside, scope, e)?;
    ask_for(
        !is_parameter(scope, target),
        TypeKind::Fixed,
        place_of(target),
    )?;
    ask_for(
        value.value_type.fits(&place.value_type),
        TypeKind::Mismatch,
        place_of(e),
    )?;
    assigned(place.code, value.code, place_of(target))
}
