// Why an instruction doesn't go on, and what it answers then.

ghost use Rattle.std.specs.Prelude.{◌≡◌, ◌+◌, ◌<◌, Some};
ghost use Rattle.bc_mean.specs.Work.{Work, Stops, Faulted};
ghost use Rattle.bc_code.specs.Instructions.{Over};
ghost use Rattle.bc_step.specs.Area.{AreaParts};
ghost use Rattle.bc_step.specs.State.{AnswersIf, KeepsGiven};
ghost use Rattle.bc_step.specs.Parts.{halt_of, GoesBehind};
ghost use Rattle.bc_step.specs.declared.state.State.{State as States};

use crate::area::{Area, End};
use crate::state::{Did, State};
use bc_data::run::{Fault, FaultKind, Place};

/// Why an instruction doesn't go on: a fault, an object that wasn't given, or operands for which it has no rule.
#[derive(Clone, Copy, Debug, PartialEq, Eq)]
pub(crate) enum Halt {
    Fault(Fault),
    Need(u32),
    Wrong,
}

/// A fault of this kind.
#[inline]
pub(crate) fn fault(kind: FaultKind, at: Place) -> Halt
    ensures { result ≡ Halt.Fault (record { kind = kind; at = at }) }
{
    Halt::Fault(Fault { kind, at })
}

/// The answer of an instruction that halts. After a fault the invocation has ended with it.
pub(crate) fn stopped(area: &mut Area, halt: Halt) -> Option<Did>
    ensures answers { (s : States) (w : Work) → AnswersIf result s area.old s area.new (Over (Stops (halt_of halt) w)) }
    ensures kept { KeepsGiven area.old area.new }
{
    match halt {
        Halt::Fault(fault) => {
            area.set_end(End::Fault(fault));
            Some(Did::Fault(fault))
        }
        Halt::Need(id) => Some(Did::Need(id)),
        Halt::Wrong => None,
    }
}

/// A fault, with which the invocation has ended.
pub(crate) fn faulted(area: &mut Area, kind: FaultKind, at: Place) -> Did
    ensures answers { (s t : States) (a : AreaParts) (w : Work)
        → AnswersIf (Some result) s a t area.new (Over (Stops (Faulted (record { kind = kind; at = at })) w)) }
    ensures kept { KeepsGiven area.old area.new }
{
    let fault = Fault { kind, at };
    area.set_end(End::Fault(fault));
    Did::Fault(fault)
}

/// The instruction is done: the next one stands behind it.
#[inline]
pub(crate) fn advance(state: &mut State)
    requires { state.old.current.next < 18446744073709551615 }
    ensures behind { GoesBehind state.old state.new }
    ensures stack { state.new.stack ≡ state.old.stack }
{
    state.current.next += 1;
}
