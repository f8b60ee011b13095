// Calls in a row, with ample memory.

ghost use Rattle.std.specs.Prelude.{◌≡◌, ◌<◌};

use crate::made::one;
use bc_data::list::List;
use bc_data::run::{Failure, Fault, FaultKind, Invocation, Place};
use bc_failed::failures::Failures;
use bc_steps::Steps;
use std::alloc::{AllocError, Global};
use std::marker::Brand;
use std::sync::ledger::{Blank, Ledger};

fn fault() -> Fault {
    Fault {
        kind: FaultKind::Null,
        at: Place { line: 3, column: 7 },
    }
}

// A failure of the task that touched the object, unless there is one or there are too many.
fn add_one(alloc: Global, failures: &mut Failures, task: u32, object: u32) -> Result<(), AllocError>
    requires { object < 65536 }
{
    if failures.has(one(task, object)) || failures.count() >= 262144 {
        return Ok(());
    }
    let touched = List::from_slice(alloc, &[object])?;
    failures.reserve(1)?;
    failures.add(one(task, object), fault(), touched);
    Ok(())
}

fn filled(alloc: Global) -> Result<Failures, AllocError> {
    let mut failures = Failures::make(alloc)?;
    add_one(alloc, &mut failures, 2, 5)?;
    add_one(alloc, &mut failures, 0, 6)?;
    add_one(alloc, &mut failures, 1, 5)?;
    Ok(failures)
}

fn drop_counted<L: Ledger>(failures: &mut Failures, id: u32, blank: Blank)
    requires name { blank.name ≡ L.name }
    requires parts { blank.parts ≡ L.parts }
    requires some { 0 < L.parts }
{
    let mut steps = Steps::<L>::new(blank);
    failures.drop_touching(id, &mut steps);
}

#[test]
fn finds_a_failure(rt: HostRuntime) -> Result<(), AllocError> {
    let failures = filled(rt.alloc())?;
    assert!(rt; failures.has(one(1, 5)));
    assert!(rt; !failures.has(one(0, 5)));
    assert!(rt; !failures.has(one(1, 6)));
    assert!(rt; failures.count() == 3);
    Ok(())
}

// The invocations of those in `filled` that touched the object.
fn touching_in_filled(alloc: Global, object: u32) -> Result<List<Invocation>, AllocError> {
    filled(alloc)?.touching(alloc, object)
}

#[test]
fn gives_those_that_touched_ascending(rt: HostRuntime) -> Result<(), AllocError> {
    let touching = touching_in_filled(rt.alloc(), 5)?;
    assert!(rt; touching.as_slice() == [one(1, 5), one(2, 5)].as_slice());
    Ok(())
}

#[test]
fn gives_none_where_none_touched(rt: HostRuntime) -> Result<(), AllocError> {
    assert!(rt; touching_in_filled(rt.alloc(), 7)?.is_empty());
    Ok(())
}

fn least_of_filled(alloc: Global, n: usize) -> Result<List<Failure>, AllocError> {
    filled(alloc)?.least(alloc, n)
}

fn failure(task: u32, object: u32) -> Failure {
    Failure {
        v: one(task, object),
        fault: fault(),
    }
}

#[test]
fn gives_the_least_ascending(rt: HostRuntime) -> Result<(), AllocError> {
    let least = least_of_filled(rt.alloc(), 2)?;
    assert!(rt; least.as_slice() == [failure(0, 6), failure(1, 5)].as_slice());
    Ok(())
}

#[test]
fn gives_all_where_there_are_fewer(rt: HostRuntime) -> Result<(), AllocError> {
    assert!(rt; least_of_filled(rt.alloc(), 9)?.len() == 3);
    Ok(())
}

#[test]
fn drops_those_that_touched(rt: HostRuntime) -> Result<(), AllocError> {
    let mut failures = filled(rt.alloc())?;
    drop_counted::<Brand>(&mut failures, 5, Blank::new(1));
    assert!(rt; failures.count() == 1);
    assert!(rt; failures.has(one(0, 6)));
    Ok(())
}

// More than a sort does without memory.
fn many(alloc: Global) -> Result<Failures, AllocError> {
    let mut failures = Failures::make(alloc)?;
    for task in 0..40 {
        add_one(alloc, &mut failures, 39 - task, 5)?;
    }
    Ok(failures)
}

// Whether the tasks count from zero.
fn are_counted(invocations: &[Invocation]) -> bool {
    for at in 0..invocations.len() {
        if invocations[at].task as usize != at {
            return false;
        }
    }
    true
}

#[test]
fn gives_many_ascending(rt: HostRuntime) -> Result<(), AllocError> {
    let alloc = rt.alloc();
    let touching = many(alloc)?.touching(alloc, 5)?;
    assert!(rt; touching.len() == 40);
    assert!(rt; are_counted(touching.as_slice()));
    Ok(())
}
