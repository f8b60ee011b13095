// Calls and their arguments.

ghost use Rattle.std.specs.Prelude.{◌≡◌, length, ◌==◌, IfOk, IsTrue};
ghost use Rattle.bc_data.specs.Typed.{Call, NoArg};
ghost use Rattle.bc_types_rules.specs.Expressions.{check_arguments, check_call, check_fits};
ghost use Rattle.bc_data.specs.ProgramView.{expr_views, view_expr};
ghost use Rattle.bc_names.specs.Answers.{Answers};
ghost use Rattle.bc_types_expr.specs.Types.{types_seen};
ghost use Rattle.bc_types_expr.specs.Looks.{looks};
ghost use Rattle.bc_types_expr.specs.Expressions.{arguments_seen, called_seen, each_seen, typed_seen};
ghost use Rattle.bc_types_expr.specs.Tails.{call_value, called_value};

use crate::ask::ask_for;
use crate::members::object_class;
use crate::table::{Signature, Table};
use crate::typed::{Argument, Arguments, Called, Typed};
use crate::value_type::ValueType;
use bc_data::program::Expr;
use bc_data::run::Place;
use bc_data::tree::Named;
use bc_names::{TypeFault, TypeKind};
use std::alloc::{AllocError, Global};

fn is_same_count(each: &[Argument], formals: &[ValueType]) -> bool
    ensures test { result ≡ (length (each_seen each.now) == length (types_seen formals.now)) }
    ensures same { IsTrue result → length formals.now ≡ length each.now }
{
    each.len() == formals.len()
}

// The first argument that doesn't fit is a mismatch at its place.
fn check_each(each: &[Argument], formals: &[ValueType]) -> Result<(), TypeFault>
    requires { length formals.now ≡ length each.now }
    ensures { Answers result (λ _. tt) (check_fits (each_seen each.now) (types_seen formals.now)) }
{
    let mut i = 0;
    while i < each.len() {
        ask_for(
            each[i].value_type.fits(&formals[i]),
            TypeKind::Mismatch,
            each[i].at,
        )?;
        i += 1;
    }
    Ok(())
}

/// Arguments are as many as the formals, and then each fits.
pub fn check_count_and_fits(
    at: Place,
    each: &[Argument],
    formals: &[ValueType],
) -> Result<(), TypeFault>
    ensures { Answers result (λ _. tt) (check_arguments at (each_seen each.now) (types_seen formals.now)) }
{
    if !is_same_count(each, formals) {
        return Err(TypeFault::Refused {
            kind: TypeKind::Arity,
            at,
        });
    }
    check_each(each, formals)
}

fn call_code(
    alloc: Global,
    at: Place,
    object: Expr,
    class: u32,
    method: u32,
    args: Vec<Expr>,
) -> Result<Expr, AllocError>
    ensures { IfOk result (λ c. view_expr c ≡ Call at (view_expr object) class method (expr_views args.items NoArg)) }
{
    let object = Box::new(alloc, object)?;
    Ok(Expr::Call(at, object, class, method, args))
}

fn copy_result(alloc: Global, signature: &Signature) -> Result<Option<ValueType>, AllocError>
    ensures { IfOk result (λ r. r ≡ signature.now.result) }
{
    match &signature.result {
        Some(value_type) => {
            let value_type = value_type.copy(alloc)?;
            Ok(Some(value_type))
        }
        None => Ok(None),
    }
}

/// A call, once its object and its arguments are known.
pub fn call_of(
    alloc: Global,
    table: &Table,
    at: Place,
    o: Typed,
    m: &Named,
    args: Arguments,
) -> Result<Called, TypeFault>
    ensures { Answers result called_seen (check_call (looks table.now) at (typed_seen o) m.now (arguments_seen args)) }
{
    let class = object_class(&o.value_type, at, m)?;
    match table.method(class, m.name.as_slice()) {
        Some((method, signature)) => {
            check_count_and_fits(at, &args.each, &signature.formals)?;
            let result = copy_result(alloc, signature)?;
            let code = call_code(alloc, at, o.code, class, method, args.codes)?;
            Ok(Called { code, result })
        }
        None => Err(TypeFault::Refused {
            kind: TypeKind::Unknown,
            at: m.at,
        }),
    }
}

fn value_of(at: Place, z: Called) -> Result<Typed, TypeFault>
    ensures { Answers result typed_seen (called_value at (called_seen z)) }
{
    let Called { code, result } = z;
    match result {
        Some(value_type) => Ok(Typed { code, value_type }),
        None => Err(TypeFault::Refused {
            kind: TypeKind::Mismatch,
            at,
        }),
    }
}

/// A call as a value, which has a result.
pub fn value_of_call(
    alloc: Global,
    table: &Table,
    at: Place,
    o: Typed,
    m: &Named,
    args: Arguments,
) -> Result<Typed, TypeFault>
    ensures { Answers result typed_seen (call_value (looks table.now) at (typed_seen o) m.now (arguments_seen args)) }
{
    let z = call_of(alloc, table, at, o, m, args)?;
    value_of(at, z)
}
