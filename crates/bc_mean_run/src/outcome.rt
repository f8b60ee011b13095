// How an invocation ends, and what it changes.

ghost use Rattle.std.specs.Prelude.{◌≡◌, ◌≤◌, ◌++◌, length, Some, slice_get, option_to_list, IfOk, OnOk};
ghost use Rattle.std.specs.List.{filter_map, range_with_len};
ghost use Rattle.std.specs.Cmp.Lexicographic.{pointwise};
ghost use Rattle.bc_data.specs.declared.run.Ran.TheVariants as ran;
ghost use Rattle.bc_mean.specs.Store.{Fits, cells_in};
ghost use Rattle.bc_mean.specs.Values.{same_value, same_tag};
ghost use Rattle.bc_mean.specs.Execute.{execute_task, most_turns};
ghost use Rattle.bc_mean.specs.Changes.{same_kind, same_body, written_of, changes_between, fault_of_room};
ghost use Rattle.bc_mean.specs.Outcome.{ending, fault_of, outcome, place_of, with_room, work_at_start, world_of};
ghost use Rattle.bc_mean_run.specs.Tree.{Mirrors, ended, halt_seen};

use crate::execute::statements;
use crate::frame::Frame;
use crate::halt::{Halt, Interrupt};
use crate::run::{Run, has_room};
use crate::stage::Stage;
use bc_data::list::List;
use bc_data::program::{Program, Task};
use bc_data::run::{Body, Changes, Fault, FaultKind, Invocation, Outcome, Place, Ran, Written};
use bc_mean::plain::Plain;
use std::alloc::{AllocError, Global};

fn same_body(a: &Body, b: &Body) -> bool
    ensures { result ≡ same_body a.now b.now }
{
    a.kind == b.kind
        && a.cells.as_slice() == b.cells.as_slice()
        && a.flags == b.flags
        && a.tags.as_slice() == b.tags.as_slice()
}

// An object of the store whose newest copy differs from its body.
fn written(alloc: Global, run: &Run, id: u32, body: &Body) -> Result<Option<Written>, AllocError>
    ensures { IfOk result (λ o. o ≡ written_of run.now id (Some body.now)) }
{
    let newest = run.newest(id, body);
    if same_body(body, newest) {
        return Ok(None);
    }
    let body = newest.copy(alloc)?;
    Ok(Some(Written { id, body }))
}

fn add(all: &mut List<Written>, one: Option<Written>) -> Result<(), AllocError>
    ensures { OnOk result (all.new ≡ all.old ++ option_to_list one) }
{
    if let Some(one) = one {
        all.push(one)?;
    }
    Ok(())
}

// The bodies that now differ, ascending.
fn all_written(alloc: Global, run: &Run, bodies: &[Body]) -> Result<List<Written>, AllocError>
    requires { length bodies.now ≤ 65536 }
    ensures { IfOk result (λ l. l ≡ filter_map (λ id. written_of run.now id (slice_get bodies.now id)) (range_with_len 0 (length bodies.now))) }
{
    let mut all = List::new(alloc);
    let mut id = 0;
    for body in bodies {
        let one = written(alloc, run, id, body)?;
        add(&mut all, one)?;
        id += 1;
    }
    Ok(all)
}

// A halt that never comes for an accepted program is shown as some fault.
fn fault_of(halt: Halt) -> Fault
    ensures { result ≡ fault_of (halt_seen halt) }
{
    match halt {
        Halt::Faulted(fault) => fault,
        _ => Fault {
            kind: FaultKind::Null,
            at: Place { line: 0, column: 0 },
        },
    }
}

/// An invocation has so many turns.
#[tactic(auto, unfolding(bc_mean::specs::Execute::most_turns))]
fn most_turns() -> u32
    ensures { result ≡ most_turns }
{
    1_000_000
}

// The cells of all these bodies together.
fn cells_in(bodies: &[Body]) -> usize
    requires { cells_in bodies.now ≤ 4194304 }
    ensures { result ≡ cells_in bodies.now }
{
    let mut count = 0;
    for body in bodies {
        count += body.cells.len();
    }
    count
}

// The first sum that would pass its limit.
fn fault_of_room(store: &Plain, c: &Changes) -> Option<FaultKind>
    requires objects { length store.now.bodies ≤ 65536 }
    requires cells { cells_in store.now.bodies ≤ 4194304 }
    ensures { result ≡ fault_of_room store.now c.now }
{
    if c.made.len() > 65536 - store.bodies.len() {
        return Some(FaultKind::Objects);
    }
    if !has_room(
        c.made.as_slice(),
        cells_in(store.bodies.as_slice()),
        4194304,
    ) {
        return Some(FaultKind::Cells);
    }
    if store.tags.len() > 65536 || c.tags.len() > 65536 - store.tags.len() {
        return Some(FaultKind::Tags);
    }
    if store.output.len() > 16777216 || c.text.len() > 16777216 - store.output.len() {
        return Some(FaultKind::Output);
    }
    None
}

// An exit without room is a fault at the task.
fn with_room(store: &Plain, at: Place, o: Outcome) -> Outcome
    requires objects { length store.now.bodies ≤ 65536 }
    requires cells { cells_in store.now.bodies ≤ 4194304 }
    ensures { result ≡ with_room store.now at o.ran o }
{
    let Outcome { ran, touched } = o;
    match ran {
        Ran::Commit(changes) => match fault_of_room(store, &changes) {
            Some(kind) => Outcome {
                ran: Ran::Faulted(Fault { kind, at }),
                touched,
            },
            None => Outcome {
                ran: Ran::Commit(changes),
                touched,
            },
        },
        Ran::Faulted(fault) => Outcome {
            ran: Ran::Faulted(fault),
            touched,
        },
    }
}

// The body of a task.
fn run_body(
    alloc: Global,
    program: &Program,
    store: &Plain,
    t: &Task,
    v: &Invocation,
    run: &mut Run,
) -> Result<(), Interrupt>
    ensures { Mirrors result (λ _. tt) run.new (ended (execute_task (world_of program.now store.now v.now) t.now v.now run.old)) }
{
    let mut frame = Frame::of_task(alloc, t, v)?;
    let stage = Stage {
        alloc,
        store,
        classes: program.classes(),
        objects: v.objects.as_slice(),
        left: most_turns(),
        depth: 0,
    };
    let _ = statements(&stage, &mut frame, t.body(), run)?;
    Ok(())
}

// The outcome of a run that exited.
fn committed(alloc: Global, store: &Plain, run: Run) -> Result<Outcome, AllocError>
    requires { length store.now.bodies ≤ 65536 }
    ensures { IfOk result (λ o. o ≡ record { ran = ran.Commit (changes_between store.now run); touched = run.touched }) }
{
    let bodies = all_written(alloc, &run, store.bodies.as_slice())?;
    Ok(run.into_outcome(bodies))
}

// How the body of the invocation's task ends.
fn body_outcome(
    alloc: Global,
    program: &Program,
    store: &Plain,
    t: &Task,
    v: &Invocation,
) -> Result<Outcome, AllocError>
    requires { length store.now.bodies ≤ 65536 }
    ensures { IfOk result (λ o. o ≡ ending store.now (execute_task (world_of program.now store.now v.now) t.now v.now (work_at_start v.now))) }
{
    let mut run = Run::new(alloc, most_turns(), v.objects.as_slice())?;
    match run_body(alloc, program, store, t, v, &mut run) {
        Ok(()) => committed(alloc, store, run),
        Err(Interrupt::Halted(halt)) => Ok(Outcome {
            ran: Ran::Faulted(fault_of(halt)),
            touched: run.into_touched(),
        }),
        Err(Interrupt::Memory) => Err(AllocError),
    }
}

/// What an invocation comes to in a store, exactly as the definition says.
pub fn run_tree(
    alloc: Global,
    program: &Program,
    store: &Plain,
    v: Invocation,
) -> Result<Outcome, AllocError>
    requires { Fits program.now store.now }
    ensures { IfOk result (λ o. o ≡ outcome program.now store.now v) }
{
    match program.tasks().get(v.task as usize) {
        Some(t) => {
            let o = body_outcome(alloc, program, store, t, &v)?;
            Ok(with_room(store, t.at(), o))
        }
        None => Ok(Outcome {
            ran: Ran::Faulted(fault_of(Halt::Wrong)),
            touched: List::from_slice(alloc, v.objects.as_slice())?,
        }),
    }
}
