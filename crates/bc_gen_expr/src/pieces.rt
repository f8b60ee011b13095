// The instructions of an expression that are not those of its parts.

ghost use Rattle.std.specs.Prelude.{◌≡◌, ◌+◌, slice_get, OnOk};
ghost use Rattle.bc_code.specs.Emitted.{Emitted, IsGrowing};
ghost use Rattle.bc_code.specs.Translation.{AreTweaks, IsMakeCall, IsTweakCode, behind_each, behind_make};
ghost use Rattle.bc_gen_expr.specs.Pieces.{DoesOperator, jump_where};

use crate::emit::{NOWHERE, put};
use bc_code::code::{Instruction, Unit};
use bc_data::program::{Class, Op, Tweak};
use bc_data::run::Place;
use std::alloc::AllocError;

/// What an operator does: it calculates from both operands, or it doesn't look at the right one where the left one has this
/// value, which is then its own.
pub enum Operator {
    Calculates(Instruction),
    Decides(bool),
}

pub fn operator_of(op: Op) -> Operator
    ensures { DoesOperator op result }
{
    match op {
        Op::Or => Operator::Decides(true),
        Op::And => Operator::Decides(false),
        Op::Same => Operator::Calculates(Instruction::Same),
        Op::Differ => Operator::Calculates(Instruction::Differ),
        Op::Less => Operator::Calculates(Instruction::Less),
        Op::LessEq => Operator::Calculates(Instruction::LessEq),
        Op::More => Operator::Calculates(Instruction::More),
        Op::MoreEq => Operator::Calculates(Instruction::MoreEq),
        Op::Add => Operator::Calculates(Instruction::Add),
        Op::Sub => Operator::Calculates(Instruction::Sub),
        Op::Mul => Operator::Calculates(Instruction::Mul),
        Op::Div => Operator::Calculates(Instruction::Div),
        Op::Rem => Operator::Calculates(Instruction::Rem),
    }
}

/// The jump that is taken where the value on top is this one.
pub fn jump_where(value: bool, goal: u32) -> Instruction
    ensures { result ≡ jump_where value goal }
{
    if value {
        Instruction::JumpIf(goal)
    } else {
        Instruction::JumpIfNot(goal)
    }
}

fn tweak(out: &mut Unit, action: &Tweak) -> Result<(), AllocError>
    requires { IsGrowing out.old }
    ensures { OnOk result (Emitted (λ T p. IsTweakCode T p action.now) (λ p. p + 1) out.old out.new) }
{
    match action {
        Tweak::Flag(flag, value) => put(out, Instruction::SetFlag(*flag, *value), NOWHERE),
        Tweak::Add(at, variable) => put(out, Instruction::AddTag(*variable), *at),
    }
}

/// Appends the actions in the braces of a `new`.
pub fn tweak_all(out: &mut Unit, tweaks: &[Tweak]) -> Result<(), AllocError>
    requires { IsGrowing out.old }
    ensures { OnOk result (Emitted (λ T p. AreTweaks T p tweaks.now) (λ p. behind_each tweaks.now p) out.old out.new) }
{
    for action in tweaks {
        tweak(out, action)?;
    }
    Ok(())
}

/// Appends the call of the class's constructor with so many arguments, where it has one.
pub fn construct(
    out: &mut Unit,
    at: Place,
    class: u32,
    count: u32,
    classes: &[Class],
) -> Result<(), AllocError>
    requires { IsGrowing out.old }
    ensures { OnOk result (Emitted (λ T p. IsMakeCall T p at class count (slice_get classes.now class)) (λ p. behind_make (slice_get classes.now class) p) out.old out.new) }
{
    match classes.get(class as usize) {
        Some(k) => match k.maker() {
            Some(_) => put(out, Instruction::Make(class, count), at),
            None => Ok(()),
        },
        None => Ok(()),
    }
}
