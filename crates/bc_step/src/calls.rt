// Calls of methods and constructors.

ghost use Rattle.std.specs.Prelude.{◌≡◌, ◌+◌, ◌-◌, ◌<◌, ◌≤◌, ◌∷◌, List, ℕ, drop, length, take, slice_get, option_map, IfOk, IfSome, IfNone, OnErr};
ghost use Rattle.bc_data.specs.declared.run.Written.{Written};
ghost use Rattle.bc_mean.specs.Work.{reach};
ghost use Rattle.bc_code.specs.declared.code.Instruction.{Instruction};
ghost use Rattle.bc_code.specs.declared.code.Unit.{Unit as CodeUnit};
ghost use Rattle.bc_code.specs.Instructions.{Reads, maker_of, method_of, rule};
ghost use Rattle.bc_step.specs.Area.{AreaParts, reads_of, work_with};
ghost use Rattle.bc_step.specs.State.{state_with};
ghost use Rattle.bc_step.specs.Control.{calls, Follows, IsStill, Moves, Opens, Reaches};

use crate::area::{Area, ObjectRef};
use crate::slots::fill;
use crate::state::{Call, Did, State};
use bc_code::code::Code;
use bc_data::run::{Fault, FaultKind, Place, Value};
use std::alloc::AllocError;

/// So many calls are nested at most.
const MOST_CALLS: usize = 100;

/// Whether the object of a call is there; or else what the call answers.
#[inline]
fn reach(area: &Area, at: Place, x: Value) -> Result<(), Option<Did>>
    ensures { (turns : ℕ) (cs : List Written) (ts : List ℕ)
        → Reaches result area.now turns cs (reach (reads_of area.now).look at x (work_with area.now turns cs ts)) }
{
    match x {
        Value::Null => Err(Some(Did::Fault(Fault {
            kind: FaultKind::Null,
            at,
        }))),
        Value::Old(id) => match area.body_of(ObjectRef::Old(id)) {
            None => Err(Some(Did::Need(id))),
            Some(_) => Ok(()),
        },
        Value::New(n) => match area.body_of(ObjectRef::New(n)) {
            None => Err(None),
            Some(_) => Ok(()),
        },
        Value::Int(_) => Err(None),
        Value::Bool(_) => Err(None),
    }
}

/// The unit of a method. More units than 32 bits count are taken for want of memory.
#[inline]
fn method_unit(code: &Code, class: u32, method: u32) -> Result<Option<u32>, AllocError>
    ensures { IfOk result (λ unit. unit ≡ method_of code.now class method) }
{
    match code.classes.get(class as usize) {
        None => Ok(None),
        Some(k) => match k.methods.checked_add(method) {
            None => Err(AllocError),
            Some(unit) => Ok(Some(unit)),
        },
    }
}

/// The unit of a class's constructor.
#[inline]
fn maker_unit(code: &Code, class: u32) -> Option<u32>
    ensures { result ≡ maker_of code.now class }
{
    match code.classes.get(class as usize) {
        None => None,
        Some(k) => k.maker,
    }
}

#[inline]
fn locals_of(code: &Code, unit: u32) -> Option<u32>
    ensures { result ≡ option_map (λ (u : CodeUnit). u.locals) (slice_get code.now.units unit) }
{
    match code.units.get(unit as usize) {
        None => None,
        Some(u) => Some(u.locals),
    }
}

impl State {
    /// Makes a call on an object with the arguments that stand here on the stack, which stays as it is.
    #[inline]
    fn open(
        &mut self,
        code: &Code,
        at: Place,
        unit: Option<u32>,
        object: Value,
        from: usize,
        to: usize,
    ) -> Result<Result<(), Option<Did>>, AllocError>
        requires next { self.old.current.next < 18446744073709551615 }
        requires order { from ≤ to }
        requires within { to ≤ length self.old.stack.items }
        ensures ok { IfOk result (λ made. (a : AreaParts) (cs : List Written) (ts : List ℕ)
            → Opens made self.old self.new a cs
            (λ st. calls code.now at unit (object ∷ take (to - from) (drop from self.old.stack.items)) st
            (state_with self.old a cs ts))) }
        ensures stack { self.new.stack ≡ self.old.stack }
        ensures err { OnErr result (IsStill self.old self.new) }
    {
        if self.turns == 0 {
            return Ok(Err(Some(Did::Fault(Fault {
                kind: FaultKind::Turns,
                at,
            }))));
        }
        if self.callers.len() >= MOST_CALLS {
            return Ok(Err(Some(Did::Fault(Fault {
                kind: FaultKind::Depth,
                at,
            }))));
        }
        let Some(unit) = unit else {
            return Ok(Err(None));
        };
        let Some(locals) = locals_of(code, unit) else {
            return Ok(Err(None));
        };
        let base = self.slots.len();
        let caller = Call {
            unit: self.current.unit,
            next: self.current.next + 1,
            base: self.current.base,
        };
        self.callers.reserve(1)?;
        fill(&mut self.slots, object, &self.stack[from..to], locals)?;
        match self.callers.push(caller) {
            Ok(()) => {}
            Err(_) => unreachable!(),
        }
        self.current = Call {
            unit,
            next: 0,
            base,
        };
        self.turns -= 1;
        Ok(Ok(()))
    }

    #[inline]
    pub(crate) fn make(
        &mut self,
        code: &Code,
        at: Place,
        class: u32,
        count: u32,
    ) -> Result<Option<Did>, AllocError>
        requires { self.old.current.next < 18446744073709551615 }
        ensures ok { IfOk result (λ did. (R : Reads)
            → Follows did self.old self.new (rule R code.now at (Instruction.Make class count))) }
        ensures err { OnErr result (IsStill self.old self.new) }
    {
        let len = self.stack.len();
        let count = count as usize;
        if len <= count {
            return Ok(None);
        }
        let from = len - 1 - count;
        let object = self.stack[len - 1];
        match self.open(code, at, maker_unit(code, class), object, from, len - 1)? {
            Ok(()) => {
                self.stack[from] = object;
                self.stack.truncate(from + 1);
                Ok(Some(Did::On))
            }
            Err(did) => Ok(did),
        }
    }

    #[inline]
    pub(crate) fn call(
        &mut self,
        code: &Code,
        area: &Area,
        at: Place,
        class: u32,
        method: u32,
        count: u32,
    ) -> Result<Option<Did>, AllocError>
        requires { self.old.current.next < 18446744073709551615 }
        ensures ok { IfOk result (λ did. (cs : List Written) (ts : List ℕ)
            → Moves did self.old self.new area.now cs
            (rule (reads_of area.now) code.now at (Instruction.Call class method count)
            (state_with self.old area.now cs ts))) }
        ensures err { OnErr result (IsStill self.old self.new) }
    {
        let len = self.stack.len();
        let count = count as usize;
        if len <= count {
            return Ok(None);
        }
        let place = len - 1 - count;
        let object = self.stack[place];
        match reach(area, at, object) {
            Err(did) => Ok(did),
            Ok(()) => {
                let unit = method_unit(code, class, method)?;
                match self.open(code, at, unit, object, place + 1, len)? {
                    Ok(()) => {
                        self.stack.truncate(place);
                        Ok(Some(Did::On))
                    }
                    Err(did) => Ok(did),
                }
            }
        }
    }
}
