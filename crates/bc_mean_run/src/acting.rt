// What a `print` writes, and the actions of a `taskexit`.

ghost use Rattle.std.specs.Prelude.{◌≡◌};
ghost use Rattle.bc_mean.specs.Execute.{act, act_all, say_number, say_truth, assert_true, text_of_truth};
ghost use Rattle.bc_mean_run.specs.Tree.{Mirrors, world_of};

use crate::frame::Frame;
use crate::halt::{Halt, Interrupt};
use crate::making::known_tag;
use crate::objects::{bind, parameter, set_flag, unbind};
use crate::run::{Run, fault};
use crate::stage::Stage;
use bc_data::program::Change;
use bc_data::run::{FaultKind, Place, Value};
use bc_data::text::decimal;
use std::alloc::Global;

/// The text of a number.
pub fn say_number(alloc: Global, at: Place, x: Value, run: &mut Run) -> Result<(), Interrupt>
    ensures { Mirrors result (λ _. tt) run.new (say_number at x run.old) }
{
    match x {
        Value::Int(n) => {
            let text = decimal(alloc, i64::from(n))?;
            run.say(at, text.as_slice())
        }
        _ => Err(Interrupt::Halted(Halt::Wrong)),
    }
}

/// The text of a truth value.
pub fn say_truth(at: Place, x: Value, run: &mut Run) -> Result<(), Interrupt>
    ensures { Mirrors result (λ _. tt) run.new (say_truth at x run.old) }
{
    match x {
        Value::Bool(b) => {
            if b {
                run.say(at, b"true")
            } else {
                run.say(at, b"false")
            }
        }
        _ => Err(Interrupt::Halted(Halt::Wrong)),
    }
}

/// A truth value that has to be true.
pub fn assert_true(at: Place, x: Value, run: &Run) -> Result<(), Interrupt>
    ensures { Mirrors result (λ _. tt) run.now (assert_true at x run.now) }
{
    match x {
        Value::Bool(true) => Ok(()),
        Value::Bool(false) => Err(fault(FaultKind::Assert, at)),
        _ => Err(Interrupt::Halted(Halt::Wrong)),
    }
}

// One action of a `taskexit` on a parameter's object.
fn act(stage: &Stage<'_>, frame: &Frame, change: Change, run: &mut Run) -> Result<(), Interrupt>
    ensures { Mirrors result (λ _. tt) run.new (act (world_of stage.now) frame.now change run.old) }
{
    match change {
        Change::Flag(p, flag, b) => {
            let o = parameter(stage, p, run)?;
            set_flag(o, flag, b, run)
        }
        Change::Add(at, p, variable) => {
            let o = parameter(stage, p, run)?;
            let t = known_tag(frame.tag(variable), run)?;
            bind(at, o, t, run)
        }
        Change::Clear(p, variable) => {
            let o = parameter(stage, p, run)?;
            let t = known_tag(frame.tag(variable), run)?;
            unbind(stage.alloc, o, t, run)
        }
    }
}

/// The actions of a `taskexit`, from left to right.
pub fn act_all(
    stage: &Stage<'_>,
    frame: &Frame,
    changes: &[Change],
    run: &mut Run,
) -> Result<(), Interrupt>
    ensures { Mirrors result (λ _. tt) run.new (act_all (world_of stage.now) frame.now changes.now run.old) }
{
    for change in changes {
        act(stage, frame, *change, run)?;
    }
    Ok(())
}
