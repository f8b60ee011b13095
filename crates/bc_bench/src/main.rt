//! Runs the first enabled invocation of a program at its start, over no input, and tells how it ended. For the benchmark alone.
#![tactic(auto)]

ghost use Rattle.std.specs.Prelude.{◌≤◌, length};

use anyhow::{Error, Result};
use bc_data::program::Program;
use bc_gen_stmt::generate;
use bc_law_histories::start_fits;
use bc_machine::machine::Ended;
use bc_machine::plain::{Run, run_over};
use bc_mean::{all_enabled, is_enabled, start};
use bc_read::reader::read_program;
use std::alloc::Global;
use std::io::Read;

// The most bytes that a program's text may have.
const TEXT_LIMIT: usize = 1_048_576;

// The program of a text.
fn accepted(alloc: Global, text: &[u8]) -> Result<Program>
    requires { length text.now ≤ 1048576 }
{
    match read_program(alloc, text) {
        Ok(read) => Ok(read.program),
        Err(_) => Err(Error::msg("the text is no program")),
    }
}

// The run of the first enabled invocation in the store at the start.
fn first_run(alloc: Global, program: &Program) -> Result<Run> {
    program.is_well_typed();
    start_fits();
    let code = generate(alloc, program)?;
    let store = start(alloc, program, &[])?;
    let enabled = all_enabled(alloc, program, &store)?;
    if let Some(v) = enabled.first()
        && is_enabled(program, &store, *v)
    {
        return Ok(run_over(alloc, &code, &store, *v)?);
    }
    Err(Error::msg("no invocation is enabled"))
}

fn main(rt: HostRuntime) -> Result<()> {
    let alloc = rt.alloc();
    let mut text = Vec::new(alloc);
    rt.stdin().read_to_end(&mut text)?;
    if text.len() > TEXT_LIMIT {
        return Err(Error::msg("the text is too long"));
    }
    let program = accepted(alloc, &text)?;
    let run = first_run(alloc, &program)?;
    match run.ended {
        Ended::Commit => println!(rt; "exit")?,
        Ended::Faulted(fault) => {
            let kind = fault.kind;
            let line = fault.at.line;
            let column = fault.at.column;
            println!(rt; "{kind:?} at {line}:{column}")?;
        }
    }
    Ok(())
}
