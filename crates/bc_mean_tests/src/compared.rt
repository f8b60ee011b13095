// The run of an invocation by its code, beside what it comes to by its program.

ghost use Rattle.bc_mean.specs.Enabled.{IsEnabled};
ghost use Rattle.bc_mean.specs.Store.{Fits};
ghost use Rattle.bc_code.specs.Translation.{Translates};

use bc_code::code::Code;
use bc_data::program::Program;
use bc_data::run::{Body, Changes, FaultKind, Invocation, Outcome, Ran, Written};
use bc_machine::machine::Ended;
use bc_machine::plain::{Run, run_over};
use bc_mean::plain::Plain;
use std::alloc::Global;
use std::process::Abort;
use std::test::Fail;

// Whether a fault is one of room, for which the run of the code doesn't look.
fn is_of_room(kind: FaultKind) -> bool {
    matches!(
        kind,
        FaultKind::Objects | FaultKind::Cells | FaultKind::Tags | FaultKind::Output
    )
}

fn same_body(body: &Body, other: &Body) -> bool {
    body.kind == other.kind
        && body.flags == other.flags
        && body.cells.as_slice() == other.cells.as_slice()
        && body.tags.as_slice() == other.tags.as_slice()
}

fn same_written(one: &Written, other: &Written) -> bool {
    one.id == other.id && same_body(&one.body, &other.body)
}

fn same_changes(changes: &Changes, others: &Changes) -> bool {
    let bodies = changes.bodies.as_slice();
    let made = changes.made.as_slice();
    bodies.len() == others.bodies.len()
        && bodies
            .iter()
            .zip(&others.bodies)
            .all(|(one, other)| same_written(one, other))
        && made.len() == others.made.len()
        && made
            .iter()
            .zip(&others.made)
            .all(|(one, other)| same_body(one, other))
        && changes.tags.as_slice() == others.tags.as_slice()
        && changes.text.as_slice() == others.text.as_slice()
}

// Whether a run ended as an outcome says.
fn same_end(rt: &impl Abort, alloc: Global, run: &Run, ran: &Ran) -> Result<(), Fail> {
    match ran {
        Ran::Commit(changes) => {
            assert_eq!(rt; run.ended, Ended::Commit);
            let made = run.area.changes(alloc)?;
            assert!(rt; same_changes(&made, changes));
        }
        Ran::Faulted(fault) if is_of_room(fault.kind) => {
            assert_eq!(rt; run.ended, Ended::Commit);
        }
        Ran::Faulted(fault) => {
            assert_eq!(rt; run.ended, Ended::Faulted(*fault));
        }
    }
    Ok(())
}

/// Whether the code's run of an invocation touches the objects of the outcome, in the same order, and ends as it says: with the
/// same fault or the same changes. Where there is no room for these, it only exits.
pub fn compare(
    rt: &impl Abort,
    alloc: Global,
    program: &Program,
    code: &Code,
    store: &Plain,
    v: Invocation,
    out: &Outcome,
) -> Result<(), Fail>
    requires translated { Translates program.now code.now }
    requires fits { Fits program.now store.now }
    requires enabled { IsEnabled program.now store.now v }
{
    program.is_well_typed();
    let run = run_over(alloc, code, store, v)?;
    assert_eq!(rt; run.area.touched(), out.touched.as_slice());
    same_end(rt, alloc, &run, &out.ran)
}
