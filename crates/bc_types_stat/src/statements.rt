// Statements.

ghost use Rattle.std.specs.Prelude.{◌≡◌};
ghost use Rattle.bc_data.specs.SourceTree.{Let, NewTag, Do, MakeDo, Return, ReturnValue, Assert, Nothing};
ghost use Rattle.bc_data.specs.View.{stat_views, view, view_stat};
ghost use Rattle.bc_types_rules.specs.Statements.{state};
ghost use Rattle.bc_data.specs.Typed as typed;
ghost use Rattle.bc_data.specs.ProgramView.{program_stat_views, view_expr, view_program_stat};
ghost use Rattle.bc_names.specs.Answers.{Answers};
ghost use Rattle.bc_types_expr.specs.Contexts.{context_of};
ghost use Rattle.bc_types_expr.specs.Types.{type_seen};
ghost use Rattle.bc_types_stat.specs.Bodies.{all_stated, block_of, stated, tested};

use crate::assignment::assign;
use crate::exit::exit;
use crate::lookups::tag_type_at;
use crate::print::print;
use bc_data::program::Stat;
use bc_data::run::Place;
use bc_data::tree::{ExprText, Formal, Named, StatText};
use bc_names::{TypeFault, TypeKind};
use bc_types_expr::{
    Inside, Scope, Typed, ValueType, ask_for, call, expression, place_of, shape_of,
};
use std::alloc::Global;

/// A declaration: its type, its value, its name, then whether the value fits.
fn declaration(
    alloc: Global,
    inside: &Inside<'_>,
    scope: &mut Scope,
    x: &Formal,
    e: &ExprText,
) -> Result<Stat, TypeFault>
    ensures { Answers result (λ d. stated (view_program_stat d) scope.new) (state (context_of inside.now) scope.old (Let x.now (view e.now))) }
{
    let shape = shape_of(inside.table, &x.kind)?;
    let value = expression(alloc, inside, scope, e)?;
    let slot = scope.slots();
    scope.declare_slot(alloc, &x.name, shape)?;
    ask_for(
        value.value_type.fits(&ValueType::Known(shape)),
        TypeKind::Mismatch,
        place_of(e),
    )?;
    Ok(Stat::Set(slot, value.code))
}

/// A new tag instance, in a task alone: its type, then its name.
fn new_tag(
    alloc: Global,
    inside: &Inside<'_>,
    scope: &mut Scope,
    at: Place,
    x: &Named,
    kind: &Named,
) -> Result<Stat, TypeFault>
    ensures { Answers result (λ d. stated (view_program_stat d) scope.new) (state (context_of inside.now) scope.old (NewTag at x.now kind.now)) }
{
    ask_for(inside.me.is_none(), TypeKind::Misplaced, at)?;
    let tag_type = tag_type_at(inside.table, kind)?;
    let variable = scope.tags();
    scope.declare_tag(alloc, x, tag_type)?;
    Ok(Stat::NewTag(at, variable, tag_type))
}

/// A call, whose result is dropped if it has one.
fn performed(
    alloc: Global,
    inside: &Inside<'_>,
    scope: &Scope,
    e: &ExprText,
) -> Result<Stat, TypeFault>
    ensures { Answers result (λ d. stated (view_program_stat d) scope.now) (state (context_of inside.now) scope.now (Do (view e.now))) }
{
    let called = call(alloc, inside, scope, e)?;
    match called.result {
        Some(_) => Ok(Stat::Drop(called.code)),
        None => Ok(Stat::Perform(called.code)),
    }
}

/// An object or an array that is made and dropped.
fn made(alloc: Global, inside: &Inside<'_>, scope: &Scope, e: &ExprText) -> Result<Stat, TypeFault>
    ensures { Answers result (λ d. stated (view_program_stat d) scope.now) (state (context_of inside.now) scope.now (MakeDo (view e.now))) }
{
    let x = expression(alloc, inside, scope, e)?;
    Ok(Stat::Drop(x.code))
}

/// A return without a value: not in a task, nor where a result is asked for.
fn plain_return(inside: &Inside<'_>, scope: &Scope, at: Place) -> Result<Stat, TypeFault>
    ensures { Answers result (λ d. stated (view_program_stat d) scope.now) (state (context_of inside.now) scope.now (Return at)) }
{
    ask_for(inside.me.is_some(), TypeKind::Misplaced, at)?;
    ask_for(inside.result.is_none(), TypeKind::Mismatch, at)?;
    Ok(Stat::Return(None))
}

/// A return with a value, where a result is asked for.
fn value_return(
    alloc: Global,
    inside: &Inside<'_>,
    scope: &Scope,
    at: Place,
    e: &ExprText,
) -> Result<Stat, TypeFault>
    ensures { Answers result (λ d. stated (view_program_stat d) scope.now) (state (context_of inside.now) scope.now (ReturnValue at (view e.now))) }
{
    let value = expression(alloc, inside, scope, e)?;
    let Some(shape) = inside.result else {
        return Err(TypeFault::Refused {
            kind: TypeKind::Misplaced,
            at,
        });
    };
    ask_for(
        value.value_type.fits(&ValueType::Known(shape)),
        TypeKind::Mismatch,
        place_of(e),
    )?;
    Ok(Stat::Return(Some(value.code)))
}

fn asserted(
    alloc: Global,
    inside: &Inside<'_>,
    scope: &Scope,
    at: Place,
    e: &ExprText,
) -> Result<Stat, TypeFault>
    ensures { Answers result (λ d. stated (view_program_stat d) scope.now) (state (context_of inside.now) scope.now (Assert at (view e.now))) }
{
    let x = expression(alloc, inside, scope, e)?;
    ask_for(x.value_type.is_bool(), TypeKind::Mismatch, place_of(e))?;
    Ok(Stat::Assert(at, x.code))
}

/// The condition is asked for a truth value behind the blocks.
fn tested_if(test: Typed, at: Place, body: Vec<Stat>, other: Vec<Stat>) -> Result<Stat, TypeFault>
    ensures { Answers result view_program_stat (tested (type_seen test.value_type) at (typed.If (view_expr test.code) (program_stat_views body.items typed.Nothing) (program_stat_views other.items typed.Nothing))) }
{
    ask_for(test.value_type.is_bool(), TypeKind::Mismatch, at)?;
    Ok(Stat::If(test.code, body, other))
}

fn tested_while(at: Place, test: Typed, test_at: Place, body: Vec<Stat>) -> Result<Stat, TypeFault>
    ensures { Answers result view_program_stat (tested (type_seen test.value_type) test_at (typed.While at (view_expr test.code) (program_stat_views body.items typed.Nothing))) }
{
    ask_for(test.value_type.is_bool(), TypeKind::Mismatch, test_at)?;
    Ok(Stat::While(at, test.code, body))
}

/// The code of a statement, or its first fault. What it declares comes into scope.
#[cycle(statements)]
pub fn statement(
    alloc: Global,
    inside: &Inside<'_>,
    scope: &mut Scope,
    s: &StatText,
) -> Result<Stat, TypeFault>
    ensures { Answers result (λ d. stated (view_program_stat d) scope.new) (state (context_of inside.now) scope.old (view_stat s.now)) }
{
    match s {
        StatText::Let(x, e) => declaration(alloc, inside, scope, x, e),
        StatText::Tag(at, x, kind) => new_tag(alloc, inside, scope, *at, x, kind),
        StatText::Assign(target, e) => assign(alloc, inside, scope, target, e),
        StatText::Call(e) => performed(alloc, inside, scope, e),
        StatText::Make(e) => made(alloc, inside, scope, e),
        StatText::Block(_, body) => {
            let codes = block(alloc, inside, scope, body.as_slice())?;
            Ok(Stat::Block(codes))
        }
        StatText::If(_, test, body, other) => {
            let condition = expression(alloc, inside, scope, test)?;
            let codes = block(alloc, inside, scope, body.as_slice())?;
            match other {
                None => tested_if(condition, place_of(test), codes, Vec::new(alloc)),
                Some(other) => {
                    let other_codes = block(alloc, inside, scope, other.as_slice())?;
                    tested_if(condition, place_of(test), codes, other_codes)
                }
            }
        }
        StatText::While(at, test, body) => {
            let condition = expression(alloc, inside, scope, test)?;
            let codes = block(alloc, inside, scope, body.as_slice())?;
            tested_while(*at, condition, place_of(test), codes)
        }
        StatText::Return(at, None) => plain_return(inside, scope, *at),
        StatText::Return(at, Some(e)) => value_return(alloc, inside, scope, *at, e),
        StatText::Print(at, items) => print(alloc, inside, scope, *at, items.as_slice()),
        StatText::Assert(at, e) => asserted(alloc, inside, scope, *at, e),
        StatText::Exit(at, changes) => exit(alloc, inside, scope, *at, changes.as_slice()),
    }
}

/// The code of a block's statements. Its names end with it.
#[cycle(statements)]
pub fn block(
    alloc: Global,
    inside: &Inside<'_>,
    scope: &mut Scope,
    body: &[StatText],
) -> Result<Vec<Stat>, TypeFault>
    ensures { Answers result (λ ds. all_stated (program_stat_views ds.items typed.Nothing) scope.new) (block_of (context_of inside.now) scope.old (stat_views body.now Nothing)) }
{
    let before = scope.len();
    let mut codes = Vec::new(alloc);
    for s in body {
        let code = statement(alloc, inside, scope, s)?;
        codes.push(code)?;
    }
    scope.end_block(before);
    Ok(codes)
}
