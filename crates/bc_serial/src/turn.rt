// One turn of worker 0, which is alone.

ghost use Rattle.std.specs.Prelude.{◌≡◌, ◌<◌, false, length, is_some, Some, OnOk, OnErr};
ghost use Rattle.std.specs.List.{list_any};
ghost use Rattle.bc_mean.specs.Enabled.{IsEnabled};
ghost use Rattle.bc_code.specs.Translation.{Translates};
ghost use Rattle.bc_machine.specs.Whole.{ComesTo};
ghost use Rattle.bc_book_events.specs.Book.{held_by};
ghost use Rattle.bc_book_events.specs.Turns.{runs_taken, turn};
ghost use Rattle.bc_book_events.specs.declared.answers.Taken.TheVariants as taken;
ghost use Rattle.bc_serial.specs.Run.{HasTaken};

use crate::machine::run_over;
use bc_book::book::Book;
use bc_book_events::{Begun, Taken};
use bc_code::code::Code;
use bc_data::run::Invocation;
use bc_data::task_set::TaskSet;
use bc_machine::machine::{Ended, Machine};
use bc_step::area::Area;
use bc_steps::Steps;
use std::alloc::{AllocError, Global};
use std::sync::ledger::Ledger;

/// Commits the invocation of worker 0 whose run has ended, or records its failure. On `Err` memory was wanting, and nothing
/// changes.
fn end_run<L: Ledger>(
    alloc: Global,
    book: &mut Book,
    ended: Ended,
    area: &mut Area,
    steps: &mut Steps<L>,
) -> Result<(), AllocError>
    requires holds { held_by book.old.running 0 ≡ Some area.old.invocation }
    requires enabled { IsEnabled book.old.program book.old.store area.old.invocation }
    requires comes { ComesTo book.old.program book.old.store area.old.invocation ended area.old }
    ensures ok { OnOk result (book.new ≡ runs_taken (taken.Got area.old.invocation) 0 book.old) }
    ensures err { OnErr result (book.new ≡ book.old) }
{
    match ended {
        Ended::Commit => {
            book.commit(alloc, 0, area, steps)?;
        }
        Ended::Faulted(fault) => {
            book.fail(alloc, 0, fault, area)?;
        }
    }
    Ok(())
}

/// Runs the invocation that worker 0 has, and commits it or records its failure. On `Err` memory was wanting, and nothing
/// changes.
fn run_taken<L: Ledger>(
    alloc: Global,
    book: &mut Book,
    code: &Code,
    v: Invocation,
    machine: &mut Machine,
    steps: &mut Steps<L>,
) -> Result<(), AllocError>
    requires code { Translates book.old.program code.now }
    requires holds { held_by book.old.running 0 ≡ Some v }
    requires enabled { IsEnabled book.old.program book.old.store v }
    ensures ok { OnOk result (book.new ≡ runs_taken (taken.Got v) 0 book.old) }
    ensures err { OnErr result (book.new ≡ book.old) }
{
    book.is_sound();
    let Begun::Ready(bodies) = book.begin(alloc, 0)? else {
        unreachable!()
    };
    let ended = run_over(alloc, book, code, v, bodies, machine)?;
    end_run(alloc, book, ended, machine.area_mut(), steps)
}

/// Takes the first pending invocation, runs it, and commits it or records its failure; or the run ends, as nothing is pending.
/// On `Err` memory was wanting, and the worker has what it took.
pub fn turn<L: Ledger>(
    alloc: Global,
    book: &mut Book,
    code: &Code,
    machine: &mut Machine,
    steps: &mut Steps<L>,
) -> Result<(), AllocError>
    requires code { Translates book.old.program code.now }
    requires worker { 0 < length book.old.running }
    requires idle { list_any is_some book.old.running ≡ false }
    ensures ok { OnOk result (book.new ≡ turn 0 book.old) }
    ensures err { OnErr result (HasTaken book.old book.new) }
{
    book.is_sound();
    let Taken::Got(v) = book.take(0, &TaskSet::all()) else {
        return Ok(());
    };
    run_taken(alloc, book, code, v, machine, steps)
}
