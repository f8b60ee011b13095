// Runs over whole stores.

ghost use Rattle.std.specs.Prelude.{◌<◌, length, All, IfOk};
ghost use Rattle.bc_data.specs.Typed.{TypedProgram};
ghost use Rattle.bc_machine.specs.Running.{AreBodiesOf, IsRunOf, IsRunning};
ghost use Rattle.bc_machine.specs.Whole.{ComesTo};

use crate::machine::{Ended, Going, Machine};
use bc_code::code::Code;
use bc_data::list::List;
use bc_data::run::{Body, Invocation};
use bc_mean::plain::Plain;
use bc_step::area::Area;
use std::alloc::{AllocError, Global};

/// A run that is over: how it ended, and what it was given and has done.
#[derive(Drop)]
pub struct Run {
    pub ended: Ended,
    pub area: Area,
}

/// The bodies of these objects, in order.
fn bodies_of(alloc: Global, store: &Plain, ids: &[u32]) -> Result<List<Body>, AllocError>
    requires { All (λ id. id < length store.now.bodies) ids.now }
    ensures { IfOk result (AreBodiesOf store.now ids.now) }
{
    let mut bodies = List::new(alloc);
    for id in ids {
        bodies.push(store.bodies[*id as usize].copy(alloc)?)?;
    }
    Ok(bodies)
}

/// Gives a machine the bodies that it asks for, one by one, until the run ends. There are no more needs than bodies,
/// since each is of another object.
fn run_to_end(
    alloc: Global,
    code: &Code,
    store: &Plain,
    machine: &mut Machine,
) -> Result<Ended, AllocError>
    requires { (P : TypedProgram) × IsRunning P store.now code.now machine.old }
    ensures { IfOk result (λ ended. (P : TypedProgram)
        → IsRunning P store.now code.now machine.old
        → ComesTo P store.now machine.old.area.invocation ended machine.new.area) }
{
    for _ in 0..u64::MAX {
        match machine.go(alloc, code)? {
            Going::Finished(ended) => return Ok(ended),
            Going::Need(id) => {
                machine.reserve_given()?;
                let body = store.bodies[id as usize].copy(alloc)?;
                machine.give(id, body);
            }
        }
    }
    unreachable!()
}

/// Runs an invocation by its code over a whole store, from which it takes the bodies that it asks for, one by one.
/// Whether its changes have room in the store isn't tested here. The error is want of memory.
pub fn run_over(alloc: Global, code: &Code, store: &Plain, v: Invocation) -> Result<Run, AllocError>
    requires { (P : TypedProgram) × IsRunOf P store.now code.now v }
    ensures { IfOk result (λ run. (P : TypedProgram)
        → IsRunOf P store.now code.now v → ComesTo P store.now v run.ended run.area) }
{
    let bodies = bodies_of(alloc, store, v.objects.as_slice())?;
    let mut machine = Machine::start(alloc, code, v, bodies)?;
    let ended = run_to_end(alloc, code, store, &mut machine)?;
    Ok(Run {
        ended,
        area: machine.into_area(),
    })
}
