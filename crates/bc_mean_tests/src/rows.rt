// Rows of texts, and what their runs tell.

ghost use Rattle.std.specs.Prelude.{◌≤◌, length};

use crate::serial::{Course, Failure, serial};
use bc_data::program::Program;
use bc_data::run::Invocation;
use bc_read::reader::read_program;
use std::alloc::Global;
use std::process::Abort;
use std::test::Fail;

/// A text, its input and its limit of commits; what its run tells, and its output.
#[derive(Clone, Copy)]
pub struct Row<'a> {
    pub text: &'a str,
    pub input: &'a str,
    pub limit: usize,
    pub told: &'a str,
    pub output: &'a str,
}

/// The program of a text.
pub fn accepted(alloc: Global, text: &str) -> Result<Program, Fail>
    requires { length text.now ≤ 1048576 }
{
    match read_program(alloc, text.as_bytes()) {
        Ok(read) => Ok(read.program),
        Err(_) => Err("a text is a program".into()),
    }
}

// Appends numbers, joined by commas.
fn push_numbers(alloc: Global, text: &mut String, ids: &[u32]) -> Result<(), Fail> {
    let mut mark = "";
    for id in ids {
        text.push_str(format!(in alloc; "{mark}{id}")?.as_str())?;
        mark = ",";
    }
    Ok(())
}

/// Appends the name of an invocation's task, its objects, and behind a bar its tag instances, if it has any.
pub fn push_invocation(
    alloc: Global,
    text: &mut String,
    program: &Program,
    v: Invocation,
) -> Result<(), Fail> {
    let Some(task) = program.tasks().get(v.task as usize) else {
        return Err("an invocation has a task".into());
    };
    text.push_str(String::from_utf8_lossy(alloc, task.name())?.as_str())?;
    text.push_str("(")?;
    push_numbers(alloc, text, v.objects.as_slice())?;
    if !v.tags.is_empty() {
        text.push_str("|")?;
        push_numbers(alloc, text, v.tags.as_slice())?;
    }
    text.push_str(")")?;
    Ok(())
}

// Appends a line for each committed invocation, of which there are few.
fn push_history(
    alloc: Global,
    text: &mut String,
    program: &Program,
    history: &[Invocation],
) -> Result<(), Fail> {
    if history.len() > 10 {
        return Ok(());
    }
    for v in history {
        push_invocation(alloc, text, program, *v)?;
        text.push_str("\n")?;
    }
    Ok(())
}

// Appends the line of a failure: its invocation, its fault, and the objects that it touched.
fn push_failure(
    alloc: Global,
    text: &mut String,
    program: &Program,
    failure: &Failure,
) -> Result<(), Fail> {
    push_invocation(alloc, text, program, failure.v)?;
    let kind = failure.fault.kind;
    let line = failure.fault.at.line;
    let column = failure.fault.at.column;
    text.push_str(format!(in alloc; " {kind:?} at {line}:{column} over ")?.as_str())?;
    push_numbers(alloc, text, failure.touched.as_slice())?;
    text.push_str("\n")?;
    Ok(())
}

// Appends a line for each failure.
fn push_failures(
    alloc: Global,
    text: &mut String,
    program: &Program,
    failures: &[Failure],
) -> Result<(), Fail> {
    for failure in failures {
        push_failure(alloc, text, program, failure)?;
    }
    Ok(())
}

/// What a run tells: a line for each commit, where there are at most 10, then one for each failure, and the end. A run that
/// has something pending ended at its limit.
pub fn told(alloc: Global, program: &Program, course: &Course) -> Result<String, Fail> {
    let mut text = String::new(alloc);
    push_history(alloc, &mut text, program, course.history.as_slice())?;
    push_failures(alloc, &mut text, program, course.failures.as_slice())?;
    let word = if course.pending.is_empty() {
        "end"
    } else {
        "spent"
    };
    let commits = course.history.len();
    let failures = course.failures.len();
    text.push_str(format!(in alloc; "{word}: {commits} committed, {failures} failed")?.as_str())?;
    Ok(text)
}

/// The run of a row. What it tells is as the row says.
pub fn run(rt: &impl Abort, alloc: Global, row: Row<'_>) -> Result<Course, Fail> {
    assert!(rt; row.text.len() <= 1_048_576);
    assert!(rt; row.input.len() <= 65_536);
    let program = accepted(alloc, row.text)?;
    let course = serial(rt, alloc, &program, row.input.as_bytes(), row.limit)?;
    let text = told(alloc, &program, &course)?;
    assert_eq!(rt; text.as_str(), row.told, "{}", row.text);
    Ok(course)
}

/// Whether a row's run tells and prints what the row says.
pub fn holds(rt: &impl Abort, alloc: Global, row: Row<'_>) -> Result<(), Fail> {
    let course = run(rt, alloc, row)?;
    let output = String::from_utf8_lossy(alloc, course.store.output.as_slice())?;
    assert_eq!(rt; output.as_str(), row.output, "{}", row.text);
    Ok(())
}
