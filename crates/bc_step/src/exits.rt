// The instructions of exits, on the objects of the parameters.

ghost use Rattle.std.specs.Prelude.{ℕ, ◌≡◌, ◌<◌, List, IfOk, OnErr};
ghost use Rattle.bc_data.specs.declared.run.Written.{Written};
ghost use Rattle.bc_code.specs.declared.code.Code.{Code};
ghost use Rattle.bc_code.specs.declared.code.Instruction.{Instruction};
ghost use Rattle.bc_code.specs.Instructions.{rule};
ghost use Rattle.bc_step.specs.Area.{AreCopies, reads_of};
ghost use Rattle.bc_step.specs.State.{AnswersIf, KeepsGiven, Obeys, StaysPut, state_with};

use crate::answer::{advance, stopped};
use crate::area::Area;
use crate::body::Edit;
use crate::reach::parameter;
use crate::state::{Did, State};
use crate::tags::{bind_variable, tag_of};
use bc_data::run::Place;
use std::alloc::{AllocError, Global};

/// A flag of a parameter's object. No mask has a flag above 31, which counts as want of memory.
pub(crate) fn exit_flag(
    alloc: Global,
    state: &mut State,
    area: &mut Area,
    at: Place,
    p: u32,
    flag: u32,
    on: bool,
) -> Result<Option<Did>, AllocError>
    requires { state.old.current.next < 18446744073709551615 }
    ensures ok { IfOk result (λ did.
        Obeys did state.old area.old state.new area.new at (Instruction.ExitFlag p flag on)) }
    ensures kept { KeepsGiven area.old area.new }
    ensures err { OnErr result (StaysPut state.old area.old state.new area.new) }
{
    if flag > 31 {
        return Err(AllocError);
    }
    match parameter(area, p) {
        Err(halt) => Ok(stopped(area, halt)),
        Ok((object, _)) => {
            area.edit(alloc, object, Edit::Flag(flag, on))?;
            advance(state);
            Ok(Some(Did::On))
        }
    }
}

/// The instance of a tag variable is taken off a parameter's object.
pub(crate) fn exit_clear(
    alloc: Global,
    state: &mut State,
    area: &mut Area,
    at: Place,
    p: u32,
    variable: u32,
) -> Result<Option<Did>, AllocError>
    requires { state.old.current.next < 18446744073709551615 }
    ensures ok { IfOk result (λ did.
        Obeys did state.old area.old state.new area.new at (Instruction.ExitClear p variable)) }
    ensures kept { KeepsGiven area.old area.new }
    ensures err { OnErr result (StaysPut state.old area.old state.new area.new) }
{
    match parameter(area, p) {
        Err(halt) => Ok(stopped(area, halt)),
        Ok((object, _)) => match tag_of(state, variable) {
            None => Ok(None),
            Some(tag) => {
                area.edit(alloc, object, Edit::Unbind(tag))?;
                advance(state);
                Ok(Some(Did::On))
            }
        },
    }
}

/// The instance of a tag variable is bound to a parameter's object.
pub(crate) fn exit_add(
    alloc: Global,
    state: &mut State,
    area: &mut Area,
    at: Place,
    p: u32,
    variable: u32,
) -> Result<Option<Did>, AllocError>
    requires { state.old.current.next < 18446744073709551615 }
    ensures ok { IfOk result (λ did.
        Obeys did state.old area.old state.new area.new at (Instruction.ExitAdd p variable)) }
    ensures kept { KeepsGiven area.old area.new }
    ensures err { OnErr result (StaysPut state.old area.old state.new area.new) }
{
    match parameter(area, p) {
        Err(halt) => Ok(stopped(area, halt)),
        Ok((object, _)) => bind_variable(alloc, state, area, at, object, variable),
    }
}
