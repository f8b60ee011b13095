// The code of an expression: that of its operands, from left to right, and then its own instruction.

ghost use Rattle.std.specs.Prelude.{◌≡◌, IfOk, OnOk};
ghost use Rattle.bc_data.specs.Typed.{NoArg};
ghost use Rattle.bc_data.specs.ProgramView.{expr_views, view_expr};
ghost use Rattle.bc_code.specs.Emitted.{Emitted, IsGrowing};
ghost use Rattle.bc_code.specs.Translation.{HasExpression, HasExpressions, after, after_all, count};

use crate::emit::{NOWHERE, position, put, write_back};
use crate::pieces::{Operator, construct, jump_where, operator_of, tweak_all};
use bc_code::code::{Instruction, Unit};
use bc_data::program::{Class, Expr};
use std::alloc::AllocError;

/// Appends the code of e to a unit. The classes are the program's: a `new` calls the constructor where the class has one. After
/// want of memory the unit is to be dropped; a unit that would pass 4,294,967,295 instructions counts as want of memory.
#[cycle(expressions)]
pub fn expression(out: &mut Unit, e: &Expr, classes: &[Class]) -> Result<(), AllocError>
    requires { IsGrowing out.old }
    ensures { OnOk result (Emitted (λ T p. HasExpression classes.now T p (view_expr e.now)) (λ p. after classes.now p (view_expr e.now)) out.old out.new) }
{
    match e {
        Expr::Int(n) => put(out, Instruction::Int(*n), NOWHERE),
        Expr::Truth(b) => put(out, Instruction::Bool(*b), NOWHERE),
        Expr::Null => put(out, Instruction::Null, NOWHERE),
        Expr::Local(slot) => put(out, Instruction::Load(*slot), NOWHERE),
        Expr::Neg(operand) => {
            expression(out, operand, classes)?;
            put(out, Instruction::Neg, NOWHERE)
        }
        Expr::Not(operand) => {
            expression(out, operand, classes)?;
            put(out, Instruction::Not, NOWHERE)
        }
        Expr::Two(at, op, left, right) => match operator_of(*op) {
            Operator::Calculates(instruction) => {
                expression(out, left, classes)?;
                expression(out, right, classes)?;
                put(out, instruction, *at)
            }
            Operator::Decides(value) => {
                expression(out, left, classes)?;
                let test = position(out);
                put(out, jump_where(value, 0), NOWHERE)?;
                expression(out, right, classes)?;
                let leap = position(out);
                put(out, Instruction::Jump(0), NOWHERE)?;
                let decided = position(out);
                put(out, Instruction::Bool(value), NOWHERE)?;
                let end = position(out);
                write_back(out, leap, Instruction::Jump(end));
                write_back(out, test, jump_where(value, decided));
                Ok(())
            }
        },
        Expr::Field(at, object, field) => {
            expression(out, object, classes)?;
            put(out, Instruction::Field(*field), *at)
        }
        Expr::Length(at, array) => {
            expression(out, array, classes)?;
            put(out, Instruction::Length, *at)
        }
        Expr::Elem(at, array, index) => {
            expression(out, array, classes)?;
            expression(out, index, classes)?;
            put(out, Instruction::Elem, *at)
        }
        Expr::Call(at, object, class, method, args) => {
            expression(out, object, classes)?;
            let count = arguments(out, args, classes)?;
            put(out, Instruction::Call(*class, *method, count), *at)
        }
        Expr::Make(at, class, args, tweaks) => {
            let count = arguments(out, args, classes)?;
            put(out, Instruction::NewObject(*class), *at)?;
            tweak_all(out, tweaks)?;
            construct(out, *at, *class, count, classes)
        }
        Expr::Array(at, kind, size) => {
            expression(out, size, classes)?;
            put(out, Instruction::NewArray(*kind), *at)
        }
    }
}

// Appends the code of arguments, in order, and counts them.
#[cycle(expressions)]
fn arguments(out: &mut Unit, es: &[Expr], classes: &[Class]) -> Result<u32, AllocError>
    requires { IsGrowing out.old }
    ensures emitted { OnOk result (Emitted (λ T p. HasExpressions classes.now T p (expr_views es.now NoArg)) (λ p. after_all classes.now p (expr_views es.now NoArg)) out.old out.new) }
    ensures counted { IfOk result (λ n. n ≡ count (expr_views es.now NoArg)) }
{
    for e in es {
        expression(out, e, classes)?;
    }
    Ok(es.len() as u32)
}
