// The store at the start of a run.

ghost use Rattle.std.specs.Prelude.{◌≡◌, pos, map, IfOk};
ghost use Rattle.bc_mean.specs.Store.{startup_object, input_array, start_store};

use crate::plain::Plain;
use bc_data::list::{Bytes, List};
use bc_data::program::Program;
use bc_data::run::{Body, Kind, Value};
use std::alloc::{AllocError, Global};

/// Object 0: the startup object, which names object 1.
fn startup_object(alloc: Global) -> Result<Body, AllocError>
    ensures { IfOk result (λ body. body ≡ startup_object) }
{
    Ok(Body {
        kind: Kind::Class(0),
        cells: List::from_slice(alloc, &[Value::Old(1)])?,
        flags: 1,
        tags: List::new(alloc),
    })
}

/// The bytes as numbers.
fn numbers(alloc: Global, input: &[u8]) -> Result<Vec<Value>, AllocError>
    ensures { IfOk result (λ cells. cells.items ≡ map (λ b. Value.Int (pos b)) input.now) }
{
    input
        .iter()
        .map(|byte| Value::Int(i32::from(*byte)))
        .collect(alloc)
}

/// Object 1: the array of the input's bytes.
fn input_array(alloc: Global, input: &[u8]) -> Result<Body, AllocError>
    ensures { IfOk result (λ body. body ≡ input_array input.now) }
{
    Ok(Body {
        kind: Kind::Ints,
        cells: List::from_vec(numbers(alloc, input)?),
        flags: 0,
        tags: List::new(alloc),
    })
}

/// The store at the start of a run on this input.
fn start_store(alloc: Global, input: &[u8]) -> Result<Plain, AllocError>
    ensures { IfOk result (λ store. store ≡ start_store input.now) }
{
    let mut bodies = List::new(alloc);
    bodies.push(startup_object(alloc)?)?;
    bodies.push(input_array(alloc, input)?)?;
    Ok(Plain {
        bodies,
        tags: List::new(alloc),
        output: Bytes::new(alloc),
    })
}

/// The store at the start of a run of a program. The startup object is the same in every program.
pub fn start(alloc: Global, _program: &Program, input: &[u8]) -> Result<Plain, AllocError>
    ensures { IfOk result (λ store. store ≡ start_store input.now) }
{
    start_store(alloc, input)
}
