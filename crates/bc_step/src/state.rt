// The state of the machine: calls, slots and a stack of values.

ghost use Rattle.std.specs.Prelude.{◌≡◌, [], IfOk, OnOk};
ghost use Rattle.bc_mean.specs.Execute.{most_turns};
ghost use Rattle.bc_step.specs.Stepping.{CanBegin, StandsAtStart};

use crate::slots::{pad, push_objects, push_tags};
use bc_code::code::Code;
use bc_data::run::{Fault, Invocation, TagRef, Value};
use std::alloc::{AllocError, Global};

/// A call that is not over: its unit, its next instruction, and where its slots begin.
#[derive(Clone, Copy, Debug, PartialEq, Eq)]
pub struct Call {
    pub unit: u32,
    pub next: usize,
    pub base: usize,
}

/// The state of a run. The last of the callers made the current call, and the last of the stack is its top. The slots
/// of a call stand behind those of its caller. The tag variables are the task's. `turns` counts those that are left.
#[derive(Debug, Drop)]
pub struct State {
    pub current: Call,
    pub callers: Vec<Call>,
    pub slots: Vec<Value>,
    pub stack: Vec<Value>,
    pub tags: Vec<TagRef>,
    pub turns: u32,
}

/// What an instruction did: the run goes on, needs an object, has exited, or has met a fault.
#[derive(Clone, Copy, Debug, PartialEq, Eq)]
pub enum Did {
    On,
    Need(u32),
    Exit,
    Fault(Fault),
}

/// An invocation has so many turns.
#[tactic(auto, unfolding(bc_mean::specs::Execute::most_turns))]
fn most_turns() -> u32
    ensures { result ≡ most_turns }
{
    1_000_000
}

impl State {
    /// The state of no invocation. It takes no memory.
    pub fn idle(alloc: Global) -> State
        ensures callers { result.callers.items ≡ [] }
        ensures slots { result.slots.items ≡ [] }
        ensures stack { result.stack.items ≡ [] }
        ensures tags { result.tags.items ≡ [] }
    {
        State {
            current: Call {
                unit: 0,
                next: 0,
                base: 0,
            },
            callers: Vec::new(alloc),
            slots: Vec::new(alloc),
            stack: Vec::new(alloc),
            tags: Vec::new(alloc),
            turns: 0,
        }
    }

    /// Goes to the state before the first instruction of another invocation, in the memory that it has: its
    /// parameters are the first slots and tag variables of its task. After want of memory it is of no use until it is
    /// restarted.
    pub fn restart(&mut self, code: &Code, v: Invocation) -> Result<(), AllocError>
        requires { CanBegin code.now v }
        ensures { OnOk result (StandsAtStart code.now v self.new) }
    {
        let Some(unit) = code.units.get(v.task as usize) else {
            unreachable!()
        };
        self.current = Call {
            unit: v.task,
            next: 0,
            base: 0,
        };
        self.callers.clear();
        self.slots.clear();
        push_objects(&mut self.slots, v.objects.as_slice())?;
        let missing = (unit.locals as usize).saturating_sub(self.slots.len());
        pad(&mut self.slots, missing, Value::Int(0))?;
        self.stack.clear();
        self.tags.clear();
        push_tags(&mut self.tags, v.tags.as_slice())?;
        let missing = (unit.tags as usize).saturating_sub(self.tags.len());
        pad(&mut self.tags, missing, TagRef::New(0))?;
        self.turns = most_turns();
        Ok(())
    }

    /// The state before the first instruction of an invocation.
    pub fn start(alloc: Global, code: &Code, v: Invocation) -> Result<State, AllocError>
        requires { CanBegin code.now v }
        ensures { IfOk result (StandsAtStart code.now v) }
    {
        let mut state = State::idle(alloc);
        state.restart(code, v)?;
        Ok(state)
    }
}
