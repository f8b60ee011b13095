// Instructions until something stops them.

ghost use Rattle.std.specs.Prelude.{◌≡◌, ℕ, IfOk, OnErr};
ghost use Rattle.bc_code.specs.Instructions.{Did as Course};
ghost use Rattle.bc_step.specs.Area.{reads_of};
ghost use Rattle.bc_step.specs.State.{KeepsGiven};
ghost use Rattle.bc_machine.specs.Course.{CanRun, Comes, Halts, Reaches};

use crate::machine::{Ended, Going};
use bc_code::code::Code;
use bc_step::area::Area;
use bc_step::state::{Did, State};
use bc_step::step::step;
use std::alloc::{AllocError, Global};

/// Runs until an object is needed or the run ends. After an error a whole number of instructions is done.
pub fn run_on(
    alloc: Global,
    code: &Code,
    state: &mut State,
    area: &mut Area,
) -> Result<Going, AllocError>
    requires { CanRun code.now state.old area.old }
    ensures ok { IfOk result (λ going. (from : Course) (k : ℕ)
        → Reaches (reads_of area.old) code.now from k state.old area.old
        → Halts (reads_of area.old) code.now from going state.new area.new) }
    ensures kept { KeepsGiven area.old area.new }
    ensures err { OnErr result ((from : Course) (k : ℕ)
        → Reaches (reads_of area.old) code.now from k state.old area.old
        → Comes (reads_of area.old) code.now from state.new area.new) }
{
    for _ in 0..u64::MAX {
        match step(alloc, code, state, area)? {
            Did::On => {}
            Did::Need(id) => return Ok(Going::Need(id)),
            Did::Exit => return Ok(Going::Finished(Ended::Commit)),
            Did::Fault(fault) => return Ok(Going::Finished(Ended::Faulted(fault))),
        }
    }
    unreachable!()
}
