// The machine of an invocation, over the store of a book.

ghost use Rattle.std.specs.Prelude.{IfOk};
ghost use Rattle.bc_machine.specs.Running.{AreBodiesOf, IsRunOf, IsRunning};
ghost use Rattle.bc_machine.specs.Whole.{ComesTo};

use bc_book::book::Book;
use bc_code::code::Code;
use bc_data::list::List;
use bc_data::run::{Body, Invocation};
use bc_machine::machine::{Ended, Going, Machine};
use std::alloc::{AllocError, Global};

/// Gives a machine the bodies that it asks for, one by one, until the run ends. There are no more needs than bodies, since each
/// is of another object.
fn run_to_end(
    alloc: Global,
    book: &Book,
    code: &Code,
    machine: &mut Machine,
) -> Result<Ended, AllocError>
    requires { IsRunning book.now.program book.now.store code.now machine.old }
    ensures { IfOk result (λ ended. ComesTo book.now.program book.now.store machine.old.area.invocation ended machine.new.area) }
{
    for _ in 0..u64::MAX {
        match machine.go(alloc, code)? {
            Going::Finished(ended) => return Ok(ended),
            Going::Need(id) => {
                machine.reserve_given()?;
                let body = book.fetch(alloc, 0, id)?;
                machine.give(id, body);
            }
        }
    }
    unreachable!()
}

/// Runs an invocation by its code over the store of the book, from which the machine takes the bodies that it asks for, one by
/// one. The bodies of its objects it has from the start. What the machine did before is dropped, and its memory stays. The error
/// is want of memory.
pub fn run_over(
    alloc: Global,
    book: &Book,
    code: &Code,
    v: Invocation,
    bodies: List<Body>,
    machine: &mut Machine,
) -> Result<Ended, AllocError>
    requires run { IsRunOf book.now.program book.now.store code.now v }
    requires bodies { AreBodiesOf book.now.store v.objects bodies }
    ensures { IfOk result (λ ended. ComesTo book.now.program book.now.store v ended machine.new.area) }
{
    machine.restart(code, v, bodies)?;
    run_to_end(alloc, book, code, machine)
}
