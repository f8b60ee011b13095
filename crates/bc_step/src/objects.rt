// The instructions on fields, elements and new objects.

ghost use Rattle.std.specs.Prelude.{◌≡◌, ◌<◌, IfOk, OnErr};
ghost use Rattle.bc_code.specs.declared.code.Code.{Code};
ghost use Rattle.bc_code.specs.declared.code.Instruction.{Instruction};
ghost use Rattle.bc_code.specs.Instructions.{rule};
ghost use Rattle.bc_step.specs.Area.{reads_of};
ghost use Rattle.bc_step.specs.State.{KeepsGiven, Obeys, ObeysRule, StaysPut};

use crate::answer::{advance, faulted, stopped};
use crate::area::Area;
use crate::body::Edit;
use crate::made::{array_size, new_body, number, push_within, zero_array};
use crate::reach::{element_of, field_of, index_in, length_of, made_at, reach};
use crate::stack::{drop_three, drop_two, replace_two, set_top, top, top_three, top_two};
use crate::state::{Did, State};
use crate::tags::{bind_variable, set_tag};
use bc_code::code::Code;
use bc_data::run::{FaultKind, Kind, Place, TagRef, Value};
use std::alloc::{AllocError, Global};

/// A field's value takes the place of its object.
#[inline]
pub(crate) fn field(
    state: &mut State,
    area: &mut Area,
    at: Place,
    field: u32,
) -> Result<Option<Did>, AllocError>
    requires { state.old.current.next < 18446744073709551615 }
    ensures ok { IfOk result (λ did. Obeys did state.old area.old state.new area.new at (Instruction.Field field)) }
    ensures kept { KeepsGiven area.old area.new }
    ensures err { OnErr result (StaysPut state.old area.old state.new area.new) }
{
    let Some(x) = top(&state.stack) else {
        return Ok(None);
    };
    match field_of(area, at, x, field) {
        Err(halt) => Ok(stopped(area, halt)),
        Ok(y) => {
            set_top(&mut state.stack, y);
            advance(state);
            Ok(Some(Did::On))
        }
    }
}

/// The value on top is written into a field of the object under it.
#[inline]
pub(crate) fn set_field(
    alloc: Global,
    state: &mut State,
    area: &mut Area,
    at: Place,
    field: u32,
) -> Result<Option<Did>, AllocError>
    requires { state.old.current.next < 18446744073709551615 }
    ensures ok { IfOk result (λ did. Obeys did state.old area.old state.new area.new at (Instruction.SetField field)) }
    ensures kept { KeepsGiven area.old area.new }
    ensures err { OnErr result (StaysPut state.old area.old state.new area.new) }
{
    let Some((x, y)) = top_two(&state.stack) else {
        return Ok(None);
    };
    match reach(area, at, x) {
        Err(halt) => Ok(stopped(area, halt)),
        Ok((object, _)) => {
            area.edit(alloc, object, Edit::Cell(field as usize, y))?;
            drop_two(&mut state.stack);
            advance(state);
            Ok(Some(Did::On))
        }
    }
}

/// The length takes the place of its array. A length that no number says counts as want of memory.
#[inline]
pub(crate) fn length(
    state: &mut State,
    area: &mut Area,
    at: Place,
) -> Result<Option<Did>, AllocError>
    requires { state.old.current.next < 18446744073709551615 }
    ensures ok { IfOk result (λ did. Obeys did state.old area.old state.new area.new at (Instruction.Length)) }
    ensures kept { KeepsGiven area.old area.new }
    ensures err { OnErr result (StaysPut state.old area.old state.new area.new) }
{
    let Some(x) = top(&state.stack) else {
        return Ok(None);
    };
    match length_of(area, at, x) {
        Err(halt) => Ok(stopped(area, halt)),
        Ok(len) => {
            let len = number(len)?;
            set_top(&mut state.stack, len);
            advance(state);
            Ok(Some(Did::On))
        }
    }
}

/// An element's value takes the place of its array and its index.
#[inline]
pub(crate) fn elem(state: &mut State, area: &mut Area, at: Place) -> Result<Option<Did>, AllocError>
    requires { state.old.current.next < 18446744073709551615 }
    ensures ok { IfOk result (λ did. Obeys did state.old area.old state.new area.new at (Instruction.Elem)) }
    ensures kept { KeepsGiven area.old area.new }
    ensures err { OnErr result (StaysPut state.old area.old state.new area.new) }
{
    let Some((array, i)) = top_two(&state.stack) else {
        return Ok(None);
    };
    match element_of(area, at, array, i) {
        Err(halt) => Ok(stopped(area, halt)),
        Ok(y) => {
            replace_two(&mut state.stack, y);
            advance(state);
            Ok(Some(Did::On))
        }
    }
}

/// The value on top is written into an element of the array that stands under the index.
#[inline]
pub(crate) fn set_elem(
    alloc: Global,
    state: &mut State,
    area: &mut Area,
    at: Place,
) -> Result<Option<Did>, AllocError>
    requires { state.old.current.next < 18446744073709551615 }
    ensures ok { IfOk result (λ did. Obeys did state.old area.old state.new area.new at (Instruction.SetElem)) }
    ensures kept { KeepsGiven area.old area.new }
    ensures err { OnErr result (StaysPut state.old area.old state.new area.new) }
{
    let Some((array, i, y)) = top_three(&state.stack) else {
        return Ok(None);
    };
    match reach(area, at, array) {
        Err(halt) => Ok(stopped(area, halt)),
        Ok((object, body)) => match index_in(at, body, i) {
            Err(halt) => Ok(stopped(area, halt)),
            Ok(n) => {
                area.edit(alloc, object, Edit::Cell(n, y))?;
                drop_three(&mut state.stack);
                advance(state);
                Ok(Some(Did::On))
            }
        },
    }
}

/// A new object of a class is put on top.
pub(crate) fn new_object(
    alloc: Global,
    code: &Code,
    state: &mut State,
    area: &mut Area,
    at: Place,
    class: u32,
) -> Result<Option<Did>, AllocError>
    requires { state.old.current.next < 18446744073709551615 }
    ensures ok { IfOk result (λ did. ObeysRule did state.old area.old state.new area.new
        (rule (reads_of area.old) code.now at (Instruction.NewObject class))) }
    ensures kept { KeepsGiven area.old area.new }
    ensures err { OnErr result (StaysPut state.old area.old state.new area.new) }
{
    let Some(k) = code.classes.get(class as usize) else {
        return Ok(None);
    };
    let body = new_body(alloc, class, k)?;
    state.stack.reserve(1)?;
    match area.make(body)? {
        None => Ok(Some(faulted(area, FaultKind::Size, at))),
        Some(n) => {
            push_within(&mut state.stack, Value::New(n));
            advance(state);
            Ok(Some(Did::On))
        }
    }
}

/// A new array takes the place of its length.
pub(crate) fn new_array(
    alloc: Global,
    state: &mut State,
    area: &mut Area,
    at: Place,
    kind: Kind,
) -> Result<Option<Did>, AllocError>
    requires { state.old.current.next < 18446744073709551615 }
    ensures ok { IfOk result (λ did. Obeys did state.old area.old state.new area.new at (Instruction.NewArray kind)) }
    ensures kept { KeepsGiven area.old area.new }
    ensures err { OnErr result (StaysPut state.old area.old state.new area.new) }
{
    let Some(x) = top(&state.stack) else {
        return Ok(None);
    };
    match array_size(at, x) {
        Err(halt) => Ok(stopped(area, halt)),
        Ok(n) => {
            let body = zero_array(alloc, kind, n)?;
            match area.make(body)? {
                None => Ok(Some(faulted(area, FaultKind::Size, at))),
                Some(i) => {
                    set_top(&mut state.stack, Value::New(i));
                    advance(state);
                    Ok(Some(Did::On))
                }
            }
        }
    }
}

/// A flag of the new object on top, which stays there. No mask has a flag above 31, which counts as want of memory.
pub(crate) fn set_flag(
    alloc: Global,
    state: &mut State,
    area: &mut Area,
    at: Place,
    flag: u32,
    on: bool,
) -> Result<Option<Did>, AllocError>
    requires { state.old.current.next < 18446744073709551615 }
    ensures ok { IfOk result (λ did. Obeys did state.old area.old state.new area.new at (Instruction.SetFlag flag on)) }
    ensures kept { KeepsGiven area.old area.new }
    ensures err { OnErr result (StaysPut state.old area.old state.new area.new) }
{
    if flag > 31 {
        return Err(AllocError);
    }
    let Some(x) = top(&state.stack) else {
        return Ok(None);
    };
    match made_at(area, x) {
        None => Ok(None),
        Some((object, _)) => {
            area.edit(alloc, object, Edit::Flag(flag, on))?;
            advance(state);
            Ok(Some(Did::On))
        }
    }
}

/// The instance of a tag variable is bound to the new object on top, which stays there.
pub(crate) fn add_tag(
    alloc: Global,
    state: &mut State,
    area: &mut Area,
    at: Place,
    variable: u32,
) -> Result<Option<Did>, AllocError>
    requires { state.old.current.next < 18446744073709551615 }
    ensures ok { IfOk result (λ did. Obeys did state.old area.old state.new area.new at (Instruction.AddTag variable)) }
    ensures kept { KeepsGiven area.old area.new }
    ensures err { OnErr result (StaysPut state.old area.old state.new area.new) }
{
    let Some(x) = top(&state.stack) else {
        return Ok(None);
    };
    match made_at(area, x) {
        None => Ok(None),
        Some((object, _)) => bind_variable(alloc, state, area, at, object, variable),
    }
}

/// A new instance is put into a tag variable.
pub(crate) fn new_tag(
    state: &mut State,
    area: &mut Area,
    at: Place,
    variable: u32,
    tag_type: u32,
) -> Result<Option<Did>, AllocError>
    requires { state.old.current.next < 18446744073709551615 }
    ensures ok { IfOk result (λ did.
        Obeys did state.old area.old state.new area.new at (Instruction.NewTag variable tag_type)) }
    ensures kept { KeepsGiven area.old area.new }
    ensures err { OnErr result (StaysPut state.old area.old state.new area.new) }
{
    match area.make_instance(tag_type)? {
        None => Ok(Some(faulted(area, FaultKind::Size, at))),
        Some(n) => {
            set_tag(state, variable, TagRef::New(n));
            advance(state);
            Ok(Some(Did::On))
        }
    }
}
