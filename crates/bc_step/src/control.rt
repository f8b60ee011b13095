// Jumps, turns, and the ends of calls.

ghost use Rattle.std.specs.Prelude.{◌≡◌, ◌<◌, List, Some};
ghost use Rattle.bc_data.specs.declared.run.Written.{Written};
ghost use Rattle.bc_code.specs.declared.code.Code.{Code};
ghost use Rattle.bc_code.specs.declared.code.Instruction.{Instruction};
ghost use Rattle.bc_code.specs.Instructions.{Reads, jumped, on_one, rule};
ghost use Rattle.bc_code.specs.Instructions.{Did as Steps};
ghost use Rattle.bc_step.specs.Area.{AreCopies};
ghost use Rattle.bc_step.specs.State.{AnswersIf, KeepsGiven};
ghost use Rattle.bc_step.specs.Control.{Follows, Moves, ended};
ghost use Rattle.bc_step.specs.declared.state.State.{State as States};

use crate::area::{Area, End};
use crate::stack::pop;
use crate::state::{Did, State};
use bc_data::run::{Fault, FaultKind, Place, Value};

#[inline]
fn set_end(did: Did, area: &mut Area)
    ensures { area.new ≡ ended (Some did) area.old }
{
    match did {
        Did::Exit => area.set_end(End::Exit),
        Did::Fault(fault) => area.set_end(End::Fault(fault)),
        Did::On => {}
        Did::Need(_) => {}
    }
}

/// After an exit or a fault the invocation has ended with it.
#[inline]
pub(crate) fn settled(did: Option<Did>, area: &mut Area) -> Option<Did>
    ensures answers { (s t : States) (cs : List Written) (d : Steps)
        → AreCopies cs area.old.held → Moves did s t area.old cs d → AnswersIf result s area.old t area.new d }
    ensures kept { KeepsGiven area.old area.new }
{
    match did {
        None => None,
        Some(answer) => {
            set_end(answer, area);
            Some(answer)
        }
    }
}

impl State {
    /// Goes on at an instruction of the same unit.
    #[inline]
    pub(crate) fn jump(&mut self, target: u32) -> Option<Did>
        ensures { (R : Reads) (code : Code) (at : Place)
            → Follows result self.old self.new (rule R code at (Instruction.Jump target)) }
    {
        self.current.next = target as usize;
        Some(Did::On)
    }

    /// Goes on at the one or the other instruction, by the truth value on top.
    #[inline]
    pub(crate) fn branch(&mut self, one: usize, other: usize) -> Option<Did>
        ensures { Follows result self.old self.new (λ s. on_one s.stack (λ x st. jumped x one other s st)) }
    {
        match pop(&mut self.stack) {
            Some(Value::Bool(b)) => {
                self.current.next = if b { one } else { other };
                Some(Did::On)
            }
            _ => None,
        }
    }

    #[inline]
    pub(crate) fn turn(&mut self, at: Place) -> Option<Did>
        requires { self.old.current.next < 18446744073709551615 }
        ensures { (R : Reads) (code : Code) → Follows result self.old self.new (rule R code at Instruction.Turn) }
    {
        if self.turns == 0 {
            return Some(Did::Fault(Fault {
                kind: FaultKind::Turns,
                at,
            }));
        }
        self.turns -= 1;
        self.current.next += 1;
        Some(Did::On)
    }

    #[inline]
    pub(crate) fn assert_true(&mut self, at: Place) -> Option<Did>
        requires { self.old.current.next < 18446744073709551615 }
        ensures { (R : Reads) (code : Code) → Follows result self.old self.new (rule R code at Instruction.Assert) }
    {
        match pop(&mut self.stack) {
            Some(Value::Bool(b)) => {
                if b {
                    self.current.next += 1;
                    Some(Did::On)
                } else {
                    Some(Did::Fault(Fault {
                        kind: FaultKind::Assert,
                        at,
                    }))
                }
            }
            _ => None,
        }
    }

    /// Goes back to the call that made this one. Where there is none the task exits.
    #[inline]
    pub(crate) fn leave(&mut self) -> Option<Did>
        ensures { (R : Reads) (code : Code) (at : Place)
            → Follows result self.old self.new (rule R code at Instruction.Return) }
    {
        match self.callers.pop() {
            None => Some(Did::Exit),
            Some(caller) => {
                self.slots.truncate(self.current.base);
                self.current = caller;
                Some(Did::On)
            }
        }
    }
}
