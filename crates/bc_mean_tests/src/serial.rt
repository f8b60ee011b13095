// The serial run of a program, one call of the meaning after the other. The store fits the program all along. Each invocation
// is run by its code too.

ghost use Rattle.std.specs.Prelude.{◌≡◌, ◌≤◌, length, IfOk, OnOk};
ghost use Rattle.bc_mean.specs.Changes.{apply_changes};
ghost use Rattle.bc_mean.specs.Commit.{HasRoom};
ghost use Rattle.bc_mean.specs.Enabled.{IsEnabled};
ghost use Rattle.bc_mean.specs.Outcome.{outcome};
ghost use Rattle.bc_mean.specs.Store.{Fits};
ghost use Rattle.bc_code.specs.Translation.{Translates};

use crate::compared::compare;
use bc_code::code::Code;
use bc_data::list::List;
use bc_data::program::Program;
use bc_data::run::{Changes, Fault, Invocation, Outcome, Ran};
use bc_gen_stmt::generate;
use bc_law_histories::start_fits;
use bc_law_soundness::{commits_have_room, keeps_fit};
use bc_mean::plain::Plain;
use bc_mean::{all_enabled, apply, is_enabled, start};
use bc_mean_run::run_tree;
use std::alloc::Global;
use std::mem;
use std::process::Abort;
use std::test::Fail;

/// A failed invocation, its fault, and the objects that it touched.
#[derive(Debug, Drop)]
pub struct Failure {
    pub v: Invocation,
    pub fault: Fault,
    pub touched: List<u32>,
}

/// A run so far: its store, the invocations that are to come, those that were committed, and those that failed.
#[derive(Drop)]
pub struct Course {
    pub store: Plain,
    pub pending: List<Invocation>,
    pub history: List<Invocation>,
    pub failures: List<Failure>,
}

// All enabled invocations of a store.
fn enabled(alloc: Global, program: &Program, store: &Plain) -> Result<List<Invocation>, Fail>
    requires { Fits program.now store.now }
{
    Ok(all_enabled(alloc, program, store)?)
}

// The numbers of the objects that changes write.
fn written(alloc: Global, changes: &Changes) -> Result<List<u32>, Fail> {
    let mut ids = List::new(alloc);
    for written in &changes.bodies {
        ids.push(written.id)?;
    }
    Ok(ids)
}

// Whether a failure touched one of these objects.
fn touches(failure: &Failure, ids: &[u32]) -> bool {
    ids.iter().any(|id| failure.touched.contains(id))
}

// The failures that touched none of these objects.
fn untouched(alloc: Global, failures: List<Failure>, ids: &[u32]) -> Result<List<Failure>, Fail> {
    let mut kept = List::new(alloc);
    for failure in failures {
        if !touches(&failure, ids) {
            kept.push(failure)?;
        }
    }
    Ok(kept)
}

// The invocations that are still enabled.
fn still_enabled(
    alloc: Global,
    program: &Program,
    store: &Plain,
    pending: &[Invocation],
) -> Result<List<Invocation>, Fail> {
    let mut kept = List::new(alloc);
    for v in pending {
        if is_enabled(program, store, *v) {
            kept.push(*v)?;
        }
    }
    Ok(kept)
}

fn has_failed(failures: &[Failure], v: Invocation) -> bool {
    failures.iter().any(|failure| failure.v == v)
}

// Appends those of these invocations that neither are pending nor have failed.
fn append_new(
    pending: &mut List<Invocation>,
    failures: &[Failure],
    all: &[Invocation],
) -> Result<(), Fail> {
    for v in all {
        if !pending.contains(v) && !has_failed(failures, *v) {
            pending.push(*v)?;
        }
    }
    Ok(())
}

// Drops the failures that touched one of these objects.
fn drop_touching(alloc: Global, failures: &mut List<Failure>, ids: &[u32]) -> Result<(), Fail> {
    let all = mem::replace(failures, List::new(alloc));
    *failures = untouched(alloc, all, ids)?;
    Ok(())
}

// Drops what is pending and no longer enabled, and appends what is newly enabled.
fn list_again(alloc: Global, program: &Program, course: &mut Course) -> Result<(), Fail>
    requires { Fits program.now course.old.store }
    ensures { course.new.store ≡ course.old.store }
{
    course.pending = still_enabled(alloc, program, &course.store, course.pending.as_slice())?;
    let all = enabled(alloc, program, &course.store)?;
    append_new(
        &mut course.pending,
        course.failures.as_slice(),
        all.as_slice(),
    )
}

// Goes on behind the commit of an invocation.
fn commit(
    alloc: Global,
    program: &Program,
    course: &mut Course,
    v: Invocation,
    changes: Changes,
) -> Result<(), Fail>
    requires room { HasRoom course.old.store changes }
    requires fits { Fits program.now (apply_changes course.old.store changes) }
    ensures { OnOk result (Fits program.now course.new.store) }
{
    let ids = written(alloc, &changes)?;
    apply(alloc, &mut course.store, changes)?;
    course.history.push(v)?;
    drop_touching(alloc, &mut course.failures, ids.as_slice())?;
    list_again(alloc, program, course)
}

// Goes on behind an invocation that ended so: a commit, unless the history has as many as it may have, or a failure.
// Whether the run goes on.
fn end(
    alloc: Global,
    program: &Program,
    course: &mut Course,
    v: Invocation,
    out: Outcome,
    limit: usize,
) -> Result<bool, Fail>
    requires fits { Fits program.now course.old.store }
    requires enabled { IsEnabled program.now course.old.store v }
    requires out { out ≡ outcome program.now course.old.store v }
    ensures { OnOk result (Fits program.now course.new.store) }
{
    program.is_well_typed();
    commits_have_room();
    keeps_fit();
    let Outcome { ran, touched } = out;
    match ran {
        Ran::Faulted(fault) => {
            course.failures.push(Failure { v, fault, touched })?;
            Ok(true)
        }
        Ran::Commit(changes) => {
            if course.history.len() >= limit {
                course.pending.push(v)?;
                return Ok(false);
            }
            commit(alloc, program, course, v, changes)?;
            Ok(true)
        }
    }
}

// Runs the first pending invocation, whose code does the same. Whether the run goes on.
fn advance(
    rt: &impl Abort,
    alloc: Global,
    program: &Program,
    code: &Code,
    course: &mut Course,
    limit: usize,
) -> Result<bool, Fail>
    requires translated { Translates program.now code.now }
    requires fits { Fits program.now course.old.store }
    ensures { OnOk result (Fits program.now course.new.store) }
{
    if course.pending.is_empty() {
        return Ok(false);
    }
    let first = course.pending.remove(0);
    let v = &first;
    assert!(rt; is_enabled(program, &course.store, *v));
    let out = run_tree(alloc, program, &course.store, *v)?;
    compare(rt, alloc, program, code, &course.store, *v, &out)?;
    end(alloc, program, course, *v, out, limit)
}

// A run at its start.
fn begun(alloc: Global, program: &Program, input: &[u8]) -> Result<Course, Fail>
    requires { length input.now ≤ 65536 }
    ensures { IfOk result (λ course. Fits program.now course.store) }
{
    program.is_well_typed();
    start_fits();
    let store = start(alloc, program, input)?;
    let pending = enabled(alloc, program, &store)?;
    Ok(Course {
        store,
        pending,
        history: List::new(alloc),
        failures: List::new(alloc),
    })
}

/// The whole run of a program, up to its end or up to an invocation that would pass the limit of commits. That one stays
/// pending.
pub fn serial(
    rt: &impl Abort,
    alloc: Global,
    program: &Program,
    input: &[u8],
    limit: usize,
) -> Result<Course, Fail>
    requires { length input.now ≤ 65536 }
    ensures { IfOk result (λ course. Fits program.now course.store) }
{
    let code = generate(alloc, program)?;
    let mut course = begun(alloc, program, input)?;
    for _ in 0..1000 {
        if !advance(rt, alloc, program, &code, &mut course, limit)? {
            return Ok(course);
        }
    }
    Err("a run ends within 1000 steps".into())
}
