// The instructions of statements.

ghost use Rattle.std.specs.Prelude.{◌+◌, map, OnOk};
ghost use Rattle.bc_data.specs.ProgramView.{program_stat_views, view_expr, view_part, view_program_stat};
ghost use Rattle.bc_data.specs.Typed.{Nothing};
ghost use Rattle.bc_code.specs.Translation.{after, after_part, after_parts, behind_each, past, past_all, At, AreChanges, HasExpression, HasPart, HasParts, HasStatement, HasStatements, IsChangeCode};
ghost use Rattle.bc_code.specs.Emitted.{Emitted, IsGrowing};

use bc_code::code::{Instruction, Unit};
use bc_data::program::{Change, Class, Expr, Part, Stat};
use bc_data::run::Place;
use bc_gen_expr::emit::{NOWHERE, position, put, write_back};
use bc_gen_expr::expression;
use std::alloc::{AllocError, Global};

// Appends the code of s to a unit. The classes are the program's. After want of memory the unit is to be dropped.
#[cycle(statements)]
fn statement(alloc: Global, out: &mut Unit, s: &Stat, classes: &[Class]) -> Result<(), AllocError>
    requires { IsGrowing out.old }
    ensures { OnOk result (Emitted (λ T p. HasStatement classes.now T p (view_program_stat s.now)) (λ p. past classes.now p (view_program_stat s.now)) out.old out.new) }
{
    match s {
        Stat::Set(slot, e) => value_then(out, e, classes, Instruction::Store(*slot), NOWHERE),
        Stat::NewTag(at, variable, tag_type) => {
            put(out, Instruction::NewTag(*variable, *tag_type), *at)
        }
        Stat::SetField(at, object, field, e) => {
            expression(out, object, classes)?;
            value_then(out, e, classes, Instruction::SetField(*field), *at)
        }
        Stat::SetElem(at, array, index, e) => {
            expression(out, array, classes)?;
            expression(out, index, classes)?;
            value_then(out, e, classes, Instruction::SetElem, *at)
        }
        Stat::Drop(e) => value_then(out, e, classes, Instruction::Pop, NOWHERE),
        Stat::Perform(e) => expression(out, e, classes),
        Stat::If(test, body, other) => {
            expression(out, test, classes)?;
            let jump = position(out);
            put(out, Instruction::JumpIfNot(0), NOWHERE)?;
            statements(alloc, out, body, classes)?;
            let leap = position(out);
            put(out, Instruction::Jump(0), NOWHERE)?;
            let second = position(out);
            statements(alloc, out, other, classes)?;
            let end = position(out);
            write_back(out, leap, Instruction::Jump(end));
            write_back(out, jump, Instruction::JumpIfNot(second));
            Ok(())
        }
        Stat::While(at, test, body) => {
            let start = position(out);
            expression(out, test, classes)?;
            let jump = position(out);
            put(out, Instruction::JumpIfNot(0), NOWHERE)?;
            put(out, Instruction::Turn, *at)?;
            statements(alloc, out, body, classes)?;
            put(out, Instruction::Jump(start), NOWHERE)?;
            let end = position(out);
            write_back(out, jump, Instruction::JumpIfNot(end));
            Ok(())
        }
        Stat::Return(None) => put(out, Instruction::Return, NOWHERE),
        Stat::Return(Some(e)) => value_then(out, e, classes, Instruction::ReturnValue, NOWHERE),
        Stat::Print(at, parts) => print(alloc, out, *at, parts, classes),
        Stat::Assert(at, e) => value_then(out, e, classes, Instruction::Assert, *at),
        Stat::Exit(changes) => {
            put_changes(out, changes)?;
            put(out, Instruction::Exit, NOWHERE)
        }
        Stat::Block(body) => statements(alloc, out, body, classes),
    }
}

/// Appends the code of statements to a unit, one behind the other. The classes are the program's. After want of memory the
/// unit is to be dropped; a unit that would pass 4,294,967,295 instructions counts as want of memory.
#[cycle(statements)]
pub fn statements(
    alloc: Global,
    out: &mut Unit,
    body: &[Stat],
    classes: &[Class],
) -> Result<(), AllocError>
    requires { IsGrowing out.old }
    ensures { OnOk result (Emitted (λ T p. HasStatements classes.now T p (program_stat_views body.now Nothing)) (λ p. past_all classes.now p (program_stat_views body.now Nothing)) out.old out.new) }
{
    for s in body {
        statement(alloc, out, s, classes)?;
    }
    Ok(())
}

// Appends the code of e and the instruction that takes its value.
fn value_then(
    out: &mut Unit,
    e: &Expr,
    classes: &[Class],
    instruction: Instruction,
    at: Place,
) -> Result<(), AllocError>
    requires { IsGrowing out.old }
    ensures { OnOk result (Emitted (λ T p. HasExpression classes.now T p (view_expr e.now) × At T (after classes.now p (view_expr e.now)) instruction at) (λ p. after classes.now p (view_expr e.now) + 1) out.old out.new) }
{
    expression(out, e, classes)?;
    put(out, instruction, at)
}

// Appends the code of the items of a `print`.
fn print(
    alloc: Global,
    out: &mut Unit,
    at: Place,
    parts: &[Part],
    classes: &[Class],
) -> Result<(), AllocError>
    requires { IsGrowing out.old }
    ensures { OnOk result (Emitted (λ T p. HasParts classes.now T at p (map view_part parts.now)) (λ p. after_parts classes.now p (map view_part parts.now)) out.old out.new) }
{
    for part in parts {
        print_part(alloc, out, at, part, classes)?;
    }
    Ok(())
}

fn print_part(
    alloc: Global,
    out: &mut Unit,
    at: Place,
    part: &Part,
    classes: &[Class],
) -> Result<(), AllocError>
    requires { IsGrowing out.old }
    ensures { OnOk result (Emitted (λ T p. HasPart classes.now T at p (view_part part.now)) (λ p. after_part classes.now p (view_part part.now)) out.old out.new) }
{
    match part {
        Part::Text(text) => {
            let bytes = text.copy(alloc)?;
            put(out, Instruction::PrintText(bytes), at)
        }
        Part::Number(e) => value_then(out, e, classes, Instruction::PrintInt, at),
        Part::Truth(e) => value_then(out, e, classes, Instruction::PrintBool, at),
    }
}

// Appends the code of the actions of a `taskexit`.
fn put_changes(out: &mut Unit, changes: &[Change]) -> Result<(), AllocError>
    requires { IsGrowing out.old }
    ensures { OnOk result (Emitted (λ T p. AreChanges T p changes.now) (behind_each changes.now) out.old out.new) }
{
    for change in changes {
        put_change(out, *change)?;
    }
    Ok(())
}

fn put_change(out: &mut Unit, change: Change) -> Result<(), AllocError>
    requires { IsGrowing out.old }
    ensures { OnOk result (Emitted (λ T p. IsChangeCode T p change) (λ p. p + 1) out.old out.new) }
{
    match change {
        Change::Flag(n, flag, value) => put(out, Instruction::ExitFlag(n, flag, value), NOWHERE),
        Change::Add(at, n, variable) => put(out, Instruction::ExitAdd(n, variable), at),
        Change::Clear(n, variable) => put(out, Instruction::ExitClear(n, variable), NOWHERE),
    }
}
