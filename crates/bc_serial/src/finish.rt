// The run of one thread, to its end.

ghost use Rattle.std.specs.Prelude.{◌≡◌, ◌<◌, false, length, is_some, OnOk, OnErr};
ghost use Rattle.std.specs.List.{list_any};
ghost use Rattle.bc_code.specs.Translation.{Translates};
ghost use Rattle.bc_book_events.specs.Events.{halt};
ghost use Rattle.bc_serial.specs.Run.{Finishes};

use crate::turn::turn;
use bc_book::book::Book;
use bc_code::code::Code;
use bc_machine::machine::Machine;
use bc_steps::Steps;
use std::alloc::{AllocError, Global};
use std::marker::Brand;
use std::sync::ledger::{Blank, Ledger};

/// Makes turns until a stop is set, all with one machine. On `Err` memory was wanting, and the run is over once it is halted. Nobody asks for the
/// steps.
fn turns<L: Ledger>(
    alloc: Global,
    book: &mut Book,
    code: &Code,
    blank: Blank,
) -> Result<(), AllocError>
    requires code { Translates book.old.program code.now }
    requires worker { 0 < length book.old.running }
    requires idle { list_any is_some book.old.running ≡ false }
    requires name { blank.name ≡ L.name }
    requires parts { blank.parts ≡ L.parts }
    requires some { 0 < L.parts }
    ensures ok { OnOk result (Finishes book.old book.new) }
    ensures err { OnErr result (Finishes book.old (halt 0 book.new)) }
{
    let mut steps = Steps::<L>::new(blank);
    let mut machine = Machine::idle(alloc);
    book.is_sound();
    while book.stop().is_none() {
        turn(alloc, book, code, &mut machine, &mut steps)?;
        book.is_sound();
    }
    Ok(())
}

/// Runs pending invocations one by one, as worker 0, until the run is over. The code is the program's, and no worker has
/// anything. Where memory is wanting, the run is over by that.
pub fn finish(alloc: Global, book: &mut Book, code: &Code)
    requires code { Translates book.old.program code.now }
    requires idle { list_any is_some book.old.running ≡ false }
    ensures { Finishes book.old book.new }
{
    // There is a worker 0.
    book.workers();
    if turns::<Brand>(alloc, book, code, Blank::new(1)).is_err() {
        book.halt(0);
    }
}
