//! The program: its words, and `main`.
#![tactic(auto)]

mod words;

use bc_base::file_shelf::FileShelf;
use bc_base::sink::{ErrorSink, OutputSink};
use bc_base::source::InputSource;
use bc_commands::answer::OUT_OF_MEMORY;
use bc_commands::top::plain;
use std::process::ExitCode;
use words::program_words;

fn main(rt: HostRuntime) -> ExitCode {
    let alloc = rt.alloc();
    let Ok(words) = program_words(alloc, &rt) else {
        return ExitCode::from(OUT_OF_MEMORY);
    };
    let mut shelf = FileShelf::new(&rt);
    let mut input = InputSource::new(rt.stdin());
    let mut out = OutputSink::new(rt.stdout());
    let mut err = ErrorSink::new(rt.stderr());
    let report = plain(alloc, &words, &mut shelf, &mut input, &mut out, &mut err);
    ExitCode::from(report.status)
}
