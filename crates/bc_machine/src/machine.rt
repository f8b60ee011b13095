// The machine of one invocation.

ghost use Rattle.std.specs.Prelude.{◌≡◌, ◌≤◌, ◌+◌, ◌==◌, [], ◌∷◌, ◌++◌, false, None, Some, slice_get, IfOk, OnOk};
ghost use Rattle.std.specs.Borrow.{sem};
ghost use Rattle.std.specs.List.{list_any};
ghost use Rattle.bc_data.specs.Typed.{TypedProgram};
ghost use Rattle.bc_mean.specs.declared.plain.Plain.{Plain};
ghost use Rattle.bc_code.specs.declared.code.Code.{Code as CodeParts};
ghost use Rattle.bc_code.specs.Given.{ids_of};
ghost use Rattle.bc_step.specs.Area.{given_of, room_of};
ghost use Rattle.bc_step.specs.State.{KeepsGiven};
ghost use Rattle.bc_machine.specs.Running.{AreBodiesOf, CanGo, CanStart, IsRunOf, IsRunning, Needs, Tells, runs_on};

use crate::run::run_on;
use bc_code::code::Code;
use bc_data::list::List;
use bc_data::run::{Body, Fault, Invocation};
use bc_step::area::Area;
use bc_step::state::State;
use std::alloc::{AllocError, Global};
use std::marker::Model;

/// How a run ended.
#[derive(Clone, Copy, Debug, PartialEq, Eq)]
pub enum Ended {
    Commit,
    Faulted(Fault),
}

/// The object that a run needs next, or how it ended.
#[derive(Clone, Copy, Debug, PartialEq, Eq)]
pub enum Going {
    Need(u32),
    Finished(Ended),
}

/// The run of one invocation.
#[derive(Drop)]
pub struct Machine {
    state: State,
    area: Area,
}

impl Model for Machine {
    ghost use Rattle.bc_machine.specs.Parts.{MachineParts};

    ghost Value = { MachineParts };

    ghost view = { λ m. record { state = m.state; area = m.area } };
}

impl Machine {
    ghost use Rattle.bc_machine.specs.Lends.{LendsArea};

    /// A machine that runs no invocation yet. It takes no memory.
    pub fn idle(alloc: Global) -> Machine
        ensures given { result.area.held ≡ [] }
        ensures end { result.area.end ≡ None }
    {
        Machine {
            state: State::idle(alloc),
            area: Area::idle(alloc),
        }
    }

    /// Goes to the start of another invocation, in the memory that the machine has; its own run is dropped. The
    /// bodies are those of the invocation's objects, in their order, and take the room of those given before, or
    /// reserved. Fails for want of memory alone. After that the machine is of no use until it is restarted.
    pub fn restart(
        &mut self,
        code: &Code,
        v: Invocation,
        bodies: List<Body>,
    ) -> Result<(), AllocError>
        requires { CanStart code.now v bodies }
        ensures running { OnOk result ((P : TypedProgram) (S : Plain)
            → IsRunOf P S code.now v → AreBodiesOf S v.objects bodies → IsRunning P S code.now self.new) }
        ensures invocation { OnOk result (self.new.area.invocation ≡ v) }
        ensures given { OnOk result (ids_of (given_of self.new.area.held) ≡ v.objects) }
        ensures end { OnOk result (self.new.area.end ≡ None) }
        ensures room { room_of self.old.area ≤ room_of self.new.area }
    {
        let named = &v;
        self.state.restart(code, *named)?;
        self.area.restart(v, bodies)
    }

    /// The machine before the first instruction. The bodies are those of the invocation's objects, in their order.
    /// Fails for want of memory alone.
    pub fn start(
        alloc: Global,
        code: &Code,
        v: Invocation,
        bodies: List<Body>,
    ) -> Result<Machine, AllocError>
        requires { CanStart code.now v bodies }
        ensures running { IfOk result (λ m. (P : TypedProgram) (S : Plain)
            → IsRunOf P S code.now v → AreBodiesOf S v.objects bodies → IsRunning P S code.now m) }
        ensures invocation { IfOk result (λ m. m.area.invocation ≡ v) }
        ensures given { IfOk result (λ m. ids_of (given_of m.area.held) ≡ v.objects) }
        ensures end { IfOk result (λ m. m.area.end ≡ None) }
    {
        let mut machine = Machine::idle(alloc);
        machine.restart(code, v, bodies)?;
        Ok(machine)
    }

    /// Runs until it needs an object or ends. After want of memory a whole number of instructions is done, and it may
    /// be called again, as after a need once the object is given; once the run has ended it may not. Whether the
    /// changes have room in the store isn't tested here.
    pub fn go(&mut self, alloc: Global, code: &Code) -> Result<Going, AllocError>
        requires { CanGo code.now self.old }
        ensures kept { KeepsGiven self.old.area self.new.area }
        ensures tells { IfOk result (λ going. (P : TypedProgram) (S : Plain)
            → IsRunning P S code.now self.old → Tells P self.new.area going) }
        ensures running { (P : TypedProgram) (S : Plain)
            → IsRunning P S code.now self.old → runs_on result (IsRunning P S code.now self.new) }
    {
        run_on(alloc, code, &mut self.state, &mut self.area)
    }

    /// Makes room for one object more, which can then be given without memory. After want of memory the run is as it
    /// was.
    pub fn reserve_given(&mut self) -> Result<(), AllocError>
        ensures room { OnOk result (1 ≤ self.new.area.spare) }
        ensures area { self.new.area ≡ record self.old.area { spare = self.new.area.spare } }
        ensures spare { self.old.area.spare ≤ self.new.area.spare }
        ensures running { (P : TypedProgram) (S : Plain) (code : CodeParts)
            → IsRunning P S code self.old → IsRunning P S code self.new }
    {
        self.area.reserve_given()
    }

    /// Gives the body of the object that the run needs. It wasn't given before, and there must be room for it.
    pub fn give(&mut self, id: u32, body: Body)
        requires new { list_any (λ other. other == id) (ids_of (given_of self.old.area.held)) ≡ false }
        requires room { 1 ≤ self.old.area.spare }
        ensures area { self.new.area ≡ record self.old.area {
          held = self.old.area.held ++ record { id = id; body = body; copy = None } ∷ [];
          spare = self.new.area.spare;
        } }
        ensures spare { self.old.area.spare ≤ self.new.area.spare + 1 }
        ensures running { (P : TypedProgram) (S : Plain) (code : CodeParts)
            → IsRunning P S code self.old
            → Needs P self.old.area id
            → slice_get S.bodies id ≡ Some body
            → IsRunning P S code self.new }
    {
        self.area.give(id, body);
    }

    /// What the run was given and has done.
    pub fn area(&self) -> &Area
        ensures { result.now ≡ self.now.area }
    {
        &self.area
    }

    /// The same, to be cleared once it was committed.
    pub fn area_mut(&mut self) -> &mut Area
        ensures* comes_back { sem 𝓛 (LendsArea self.entry result) }
        ensures value { result.now ≡ self.old.area }
    {
        &mut self.area
    }

    /// The same, where the run isn't gone on with.
    pub fn into_area(self) -> Area
        ensures { result ≡ self.area }
    {
        let Machine { area, .. } = self;
        area
    }
}
