// New objects and arrays.

ghost use Rattle.std.specs.Prelude.{◌≡◌, []};
ghost use Rattle.bc_data.specs.SourceTree.{Empty};
ghost use Rattle.bc_data.specs.View.{onto};
ghost use Rattle.bc_data.specs.Shapes.{shape_of_kind};
ghost use Rattle.bc_types_rules.specs.Numbering.{try_fold};
ghost use Rattle.bc_data.specs.Typed.{Make, NoArg};
ghost use Rattle.bc_types_rules.specs.Expressions.{array_at, check_tweak};
ghost use Rattle.bc_data.specs.ProgramView.{expr_views, view_expr};
ghost use Rattle.bc_names.specs.Answers.{Answers};
ghost use Rattle.bc_types_expr.specs.Looks.{looks};
ghost use Rattle.bc_types_expr.specs.Expressions.{arguments_seen, typed_seen};
ghost use Rattle.bc_types_expr.specs.Tails.{array_of, made};

use crate::ask::ask_for;
use crate::calls::check_count_and_fits;
use crate::lookups::{class_at, flag_at, variable_at};
use crate::scope::Scope;
use crate::table::Table;
use crate::typed::{Arguments, Typed};
use crate::value_type::ValueType;
use bc_data::program::{Expr, Shape, Tweak};
use bc_data::run::{Kind, Place};
use bc_data::tree::{ActionText, Base, Named, TypeText};
use bc_names::{TypeFault, TypeKind};
use std::alloc::Global;

// An action in the braces of a `new`: a flag of the class, or a tag variable.
fn add_tweak(
    table: &Table,
    scope: &Scope,
    class: u32,
    tweaks: &mut Vec<Tweak>,
    action: &ActionText,
) -> Result<(), TypeFault>
    ensures { Answers result (λ _. tweaks.new.items) (check_tweak (looks table.now) scope.now class tweaks.old.items action.now) }
{
    match action {
        ActionText::Flag(x, b) => {
            let flag = flag_at(table, class, x)?;
            tweaks.push(Tweak::Flag(flag, *b))?;
            Ok(())
        }
        ActionText::Add(at, x) => {
            let variable = variable_at(scope, x)?;
            tweaks.push(Tweak::Add(*at, variable))?;
            Ok(())
        }
        ActionText::Clear(at, _) => Err(TypeFault::Refused {
            kind: TypeKind::Misplaced,
            at: *at,
        }),
    }
}

fn tweaks_of(
    alloc: Global,
    table: &Table,
    scope: &Scope,
    class: u32,
    actions: &[ActionText],
) -> Result<Vec<Tweak>, TypeFault>
    ensures { Answers result (λ v. v.items) (try_fold (check_tweak (looks table.now) scope.now class) [] (onto actions.now Empty)) }
{
    let mut tweaks = Vec::new(alloc);
    for action in actions {
        add_tweak(table, scope, class, &mut tweaks, action)?;
    }
    Ok(tweaks)
}

fn make_code(at: Place, class: u32, args: Vec<Expr>, tweaks: Vec<Tweak>) -> Expr
    ensures { view_expr result ≡ Make at class (expr_views args.items NoArg) tweaks.items }
{
    Expr::Make(at, class, args, tweaks)
}

/// A `new` of an object, once its arguments are known.
pub fn object(
    alloc: Global,
    table: &Table,
    scope: &Scope,
    at: Place,
    x: &Named,
    args: Arguments,
    actions: &[ActionText],
) -> Result<Typed, TypeFault>
    ensures { Answers result typed_seen (made (looks table.now) scope.now at x.now (arguments_seen args) (onto actions.now Empty)) }
{
    let class = class_at(table, x.name.as_slice(), x.at)?;
    check_count_and_fits(at, &args.each, table.maker(class))?;
    let tweaks = tweaks_of(alloc, table, scope, class, actions)?;
    Ok(Typed {
        code: make_code(at, class, args.codes, tweaks),
        value_type: ValueType::Known(Shape::Class(class)),
    })
}

fn kind_of_array(table: &Table, base: &Base, at: Place) -> Result<Kind, TypeFault>
    ensures { Answers result (λ k. k) (array_at (looks table.now) base.now at) }
{
    match base {
        Base::Int => Ok(Kind::Ints),
        Base::Bool => Ok(Kind::Bools),
        Base::Class(name) => {
            let class = class_at(table, name.as_slice(), at)?;
            Ok(Kind::Objects(class))
        }
    }
}

fn shape_of_array(kind: Kind) -> Shape
    ensures { result ≡ shape_of_kind kind }
{
    match kind {
        Kind::Class(class) => Shape::Class(class),
        Kind::Ints => Shape::Ints,
        Kind::Bools => Shape::Bools,
        Kind::Objects(class) => Shape::Objects(class),
    }
}

/// A new array, once its size is known.
pub fn array(
    alloc: Global,
    table: &Table,
    at: Place,
    t: &TypeText,
    x: Typed,
) -> Result<Typed, TypeFault>
    ensures { Answers result typed_seen (array_of (looks table.now) at t.now (typed_seen x)) }
{
    let kind = kind_of_array(table, &t.base, t.at)?;
    ask_for(x.value_type.is_int(), TypeKind::Mismatch, at)?;
    Ok(Typed {
        code: Expr::Array(at, kind, Box::new(alloc, x.code)?),
        value_type: ValueType::Known(shape_of_array(kind)),
    })
}
