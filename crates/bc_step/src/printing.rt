// Instructions that print.

ghost use Rattle.std.specs.Prelude.{◌≡◌, ◌<◌, ◌∷◌, List, ℕ, reverse, option_copied, IfOk, OnErr};
ghost use Rattle.bc_data.specs.declared.run.Written.{Written};
ghost use Rattle.bc_code.specs.declared.code.Code.{Code};
ghost use Rattle.bc_code.specs.declared.code.Instruction.{Instruction};
ghost use Rattle.bc_code.specs.Instructions.{rule};
ghost use Rattle.bc_mean.specs.Execute.{say_number, say_truth};
ghost use Rattle.bc_mean.specs.Work.{Work};
ghost use Rattle.bc_step.specs.Area.{AreCopies, reads_of};
ghost use Rattle.bc_step.specs.State.{AnswersIf, KeepsGiven, Obeys, StaysPut, state_with};
ghost use Rattle.bc_step.specs.Control.{Said, says_next, told};

use crate::area::{Area, End};
use crate::stack::{drop_top, top};
use crate::state::{Did, State};
use bc_data::list::Bytes;
use bc_data::run::{Fault, FaultKind, Place, Value};
use bc_data::text::decimal;
use std::alloc::{AllocError, Global};

/// Appends a text. Where that is too long the invocation has ended with the fault that this gives.
fn say(area: &mut Area, at: Place, bytes: &[u8]) -> Result<Option<Fault>, AllocError>
    ensures ok { IfOk result (λ fault. Said fault at bytes.now area.old area.new) }
    ensures err { OnErr result (area.new ≡ area.old) }
{
    if area.say(bytes)? {
        Ok(None)
    } else {
        let fault = Fault {
            kind: FaultKind::Text,
            at,
        };
        area.set_end(End::Fault(fault));
        Ok(Some(fault))
    }
}

// The text of a number. A value of another kind has none.
fn number_text(alloc: Global, x: Value) -> Result<Option<Bytes>, AllocError>
    ensures { IfOk result (λ text. (at : Place) (w : Work) → say_number at x w ≡ told text at w) }
{
    match x {
        Value::Int(n) => {
            let text = decimal(alloc, i64::from(n))?;
            Ok(Some(text))
        }
        _ => Ok(None),
    }
}

// The text of a truth value. A value of another kind has none.
fn truth_text(x: Value) -> Option<&'static [u8]>
    ensures { (at : Place) (w : Work) → say_truth at x w ≡ told (option_copied result) at w }
{
    match x {
        Value::Bool(b) => { if b { Some(b"true") } else { Some(b"false") } }
        _ => None,
    }
}

pub(crate) fn print_text(
    state: &mut State,
    area: &mut Area,
    at: Place,
    bytes: &[u8],
) -> Result<Option<Did>, AllocError>
    requires { state.old.current.next < 18446744073709551615 }
    ensures ok { IfOk result (λ did.
        Obeys did state.old area.old state.new area.new at (Instruction.PrintText bytes.now)) }
    ensures kept { KeepsGiven area.old area.new }
    ensures err { OnErr result (StaysPut state.old area.old state.new area.new) }
{
    match say(area, at, bytes)? {
        Some(fault) => Ok(Some(Did::Fault(fault))),
        None => {
            state.current.next += 1;
            Ok(Some(Did::On))
        }
    }
}

// Prints in the place of the top.
fn print_top(
    state: &mut State,
    area: &mut Area,
    at: Place,
    bytes: &[u8],
) -> Result<Option<Did>, AllocError>
    requires { state.old.current.next < 18446744073709551615 }
    ensures ok { IfOk result (λ did. (x : Value) (st : List Value) (cs : List Written) (ts : List ℕ)
        → reverse state.old.stack.items ≡ x ∷ st
        → AreCopies cs area.old.held
        → AnswersIf did state.old area.old state.new area.new
        (says_next at bytes.now st (state_with state.old area.old cs ts))) }
    ensures kept { KeepsGiven area.old area.new }
    ensures err { OnErr result (StaysPut state.old area.old state.new area.new) }
{
    match say(area, at, bytes)? {
        Some(fault) => Ok(Some(Did::Fault(fault))),
        None => {
            drop_top(&mut state.stack);
            state.current.next += 1;
            Ok(Some(Did::On))
        }
    }
}

pub(crate) fn print_int(
    alloc: Global,
    state: &mut State,
    area: &mut Area,
    at: Place,
) -> Result<Option<Did>, AllocError>
    requires { state.old.current.next < 18446744073709551615 }
    ensures ok { IfOk result (λ did. Obeys did state.old area.old state.new area.new at Instruction.PrintInt) }
    ensures kept { KeepsGiven area.old area.new }
    ensures err { OnErr result (StaysPut state.old area.old state.new area.new) }
{
    match top(&state.stack) {
        None => Ok(None),
        Some(x) => match number_text(alloc, x)? {
            None => Ok(None),
            Some(text) => print_top(state, area, at, text.as_slice()),
        },
    }
}

pub(crate) fn print_bool(
    state: &mut State,
    area: &mut Area,
    at: Place,
) -> Result<Option<Did>, AllocError>
    requires { state.old.current.next < 18446744073709551615 }
    ensures ok { IfOk result (λ did. Obeys did state.old area.old state.new area.new at Instruction.PrintBool) }
    ensures kept { KeepsGiven area.old area.new }
    ensures err { OnErr result (StaysPut state.old area.old state.new area.new) }
{
    match top(&state.stack) {
        None => Ok(None),
        Some(x) => match truth_text(x) {
            None => Ok(None),
            Some(text) => print_top(state, area, at, text),
        },
    }
}
