// Calls in a row, with ample memory.

ghost use Rattle.std.specs.Prelude.{◌≡◌, ◌<◌, [], ◌∷◌, IfOk, None, replicate};

use crate::made::one;
use bc_data::list::List;
use bc_data::run::Invocation;
use bc_data::task_set::TaskSet;
use bc_pending::keep::Keep;
use bc_pending::pending::Pending;
use bc_steps::Steps;
use std::alloc::{AllocError, Global};
use std::marker::Brand;
use std::sync::ledger::{Blank, Ledger};

fn is_one(v: Option<Invocation>, task: u32, object: u32) -> bool {
    v == Some(one(task, object))
}

// Three invocations of two tasks, and two workers.
fn filled(alloc: Global) -> Result<Pending, AllocError>
    ensures listed { IfOk result (λ p. p.listed ≡ record { task = 0; objects = 5 ∷ []; tags = [] } ∷ record { task = 1; objects = 5 ∷ []; tags = [] } ∷ record { task = 1; objects = 7 ∷ []; tags = [] } ∷ []) }
    ensures held { IfOk result (λ p. p.held ≡ replicate 2 None) }
{
    let more = List::from_slice(alloc, &[one(0, 5), one(1, 5), one(1, 7)])?;
    let mut pending = Pending::make(alloc, 2)?;
    pending.reserve(3)?;
    pending.append_sorted(&more);
    Ok(pending)
}

// Keeps those of the task.
struct OfTask {
    task: u32,
}

impl Keep for OfTask {
    ghost use Rattle.std.specs.Prelude.{◌==◌};

    ghost keeps = { λ t v. v.task == t.task };

    fn keep(&self, v: Invocation) -> bool {
        v.task == self.task
    }
}

fn drop_counted<L: Ledger>(pending: &mut Pending, id: u32, test: &OfTask, blank: Blank)
    requires name { blank.name ≡ L.name }
    requires parts { blank.parts ≡ L.parts }
    requires some { 0 < L.parts }
    ensures { pending.new.held ≡ pending.old.held }
{
    let mut steps = Steps::<L>::new(blank);
    pending.drop_of(id, test, &mut steps);
}

#[test]
fn takes_the_first_of_a_task(rt: HostRuntime) -> Result<(), AllocError> {
    let mut pending = filled(rt.alloc())?;
    let tasks = TaskSet::none().with(1);
    assert!(rt; is_one(pending.take_first_of(0, &tasks), 1, 5));
    assert!(rt; is_one(pending.held(0), 1, 5));
    assert!(rt; pending.held(1).is_none());
    assert!(rt; pending.take_first_of(1, &TaskSet::none().with(2)).is_none());
    Ok(())
}

#[test]
fn has_what_is_listed(rt: HostRuntime) -> Result<(), AllocError> {
    let pending = filled(rt.alloc())?;
    assert!(rt; pending.has(one(0, 5)));
    assert!(rt; !pending.has(one(0, 7)));
    assert!(rt; pending.len() == 3);
    Ok(())
}

#[test]
fn puts_back_to_the_end(rt: HostRuntime) -> Result<(), AllocError> {
    let mut pending = filled(rt.alloc())?;
    assert!(rt; pending.take_this(0, one(0, 5)));
    assert!(rt; !pending.has(one(0, 5)));
    assert!(rt; !pending.take_this(1, one(0, 5)));
    pending.put_back(0);
    assert!(rt; pending.take_this(0, one(1, 5)));
    pending.forget(0);
    assert!(rt; is_one(pending.take_first_of(0, &TaskSet::all()), 1, 7));
    assert!(rt; is_one(pending.take_first_of(1, &TaskSet::all()), 0, 5));
    assert!(rt; pending.is_empty());
    Ok(())
}

#[test]
fn drops_what_names_the_object(rt: HostRuntime) -> Result<(), AllocError> {
    let mut pending = filled(rt.alloc())?;
    drop_counted::<Brand>(&mut pending, 5, &OfTask { task: 1 }, Blank::new(1));
    assert!(rt; is_one(pending.take_first_of(0, &TaskSet::all()), 1, 5));
    assert!(rt; is_one(pending.take_first_of(1, &TaskSet::all()), 1, 7));
    assert!(rt; pending.is_empty());
    Ok(())
}

#[test]
fn drops_none_where_none_is_listed(rt: HostRuntime) -> Result<(), AllocError> {
    let mut pending = filled(rt.alloc())?;
    assert!(rt; pending.take_this(0, one(1, 7)));
    drop_counted::<Brand>(&mut pending, 7, &OfTask { task: 0 }, Blank::new(1));
    assert!(rt; pending.len() == 2);
    assert!(rt; is_one(pending.held(0), 1, 7));
    Ok(())
}

#[test]
fn drops_what_was_put_back(rt: HostRuntime) -> Result<(), AllocError> {
    let mut pending = filled(rt.alloc())?;
    assert!(rt; pending.take_this(0, one(1, 7)));
    pending.put_back(0);
    drop_counted::<Brand>(&mut pending, 7, &OfTask { task: 0 }, Blank::new(1));
    assert!(rt; pending.len() == 2);
    assert!(rt; !pending.has(one(1, 7)));
    Ok(())
}
