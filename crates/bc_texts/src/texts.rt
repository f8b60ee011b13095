// The texts that the program writes beside a program's output.

ghost use Rattle.std.specs.Prelude.{◌≡◌, ℕ, [], ◌++◌, slice_get, IfOk, OnOk};
ghost use Rattle.std.specs.List.{flat_map};
ghost use Rattle.std.specs.Fmt.{decimal};
ghost use Rattle.bc_texts.specs.Texts.{kind_name, joined, behind_comma, tags_text, task_name, invocation_text, place_text, failure_line, end_line, spent_text, crowded_text, memory_text, refused_name, refused_text, ok_text};

use crate::refused::RefusedKind;
use bc_data::list::Bytes;
use bc_data::program::{Program, Task};
use bc_data::run::{Failure, FaultKind, Invocation, Place};
use bc_data::text::natural;
use std::alloc::{AllocError, Global};

/// The name of a kind of fault.
pub fn kind_name(kind: FaultKind) -> &'static [u8]
    ensures { result.now ≡ kind_name kind }
{
    match kind {
        FaultKind::Null => b"Null",
        FaultKind::Bounds => b"Bounds",
        FaultKind::Zero => b"Zero",
        FaultKind::Assert => b"Assert",
        FaultKind::Size => b"Size",
        FaultKind::Turns => b"Turns",
        FaultKind::Depth => b"Depth",
        FaultKind::Text => b"Text",
        FaultKind::TagSlots => b"TagSlots",
        FaultKind::Objects => b"Objects",
        FaultKind::Cells => b"Cells",
        FaultKind::Tags => b"Tags",
        FaultKind::Output => b"Output",
    }
}

// Appends a number.
fn push_number(text: &mut Bytes, alloc: Global, n: u64) -> Result<(), AllocError>
    ensures { OnOk result (text.new ≡ text.old ++ decimal n) }
{
    text.extend_from_slice(natural(alloc, n)?.as_slice())
}

// Appends numbers, joined by commas.
fn push_joined(text: &mut Bytes, alloc: Global, ids: &[u32]) -> Result<(), AllocError>
    ensures { OnOk result (text.new ≡ text.old ++ joined ids.now) }
{
    let Some((first, rest)) = ids.split_first() else {
        return Ok(());
    };
    push_number(text, alloc, u64::from(*first))?;
    for id in rest {
        text.push(b',')?;
        push_number(text, alloc, u64::from(*id))?;
    }
    Ok(())
}

// Appends tag instances behind a bar, where there are any.
fn push_tags(text: &mut Bytes, alloc: Global, ids: &[u32]) -> Result<(), AllocError>
    ensures { OnOk result (text.new ≡ text.old ++ tags_text ids.now) }
{
    if ids.is_empty() {
        return Ok(());
    }
    text.push(b'|')?;
    push_joined(text, alloc, ids)
}

// Appends the name of a task.
fn push_name(text: &mut Bytes, tasks: &[Task], task: usize) -> Result<(), AllocError>
    ensures { OnOk result (text.new ≡ text.old ++ task_name (slice_get tasks.now task)) }
{
    if task < tasks.len() {
        text.extend_from_slice(tasks[task].name())?;
    }
    Ok(())
}

// Appends an invocation.
fn push_invocation(
    text: &mut Bytes,
    alloc: Global,
    program: &Program,
    v: &Invocation,
) -> Result<(), AllocError>
    ensures { OnOk result (text.new ≡ text.old ++ invocation_text program.now v.now) }
{
    push_name(text, program.tasks(), v.task as usize)?;
    text.extend_from_slice(b"(")?;
    push_joined(text, alloc, v.objects.as_slice())?;
    push_tags(text, alloc, v.tags.as_slice())?;
    text.extend_from_slice(b")")
}

// Appends a place.
fn push_place(text: &mut Bytes, alloc: Global, at: Place) -> Result<(), AllocError>
    ensures { OnOk result (text.new ≡ text.old ++ place_text at) }
{
    push_number(text, alloc, u64::from(at.line))?;
    text.extend_from_slice(b":")?;
    push_number(text, alloc, u64::from(at.column))
}

// Appends the line of a failure.
fn push_failure(
    text: &mut Bytes,
    alloc: Global,
    program: &Program,
    failure: &Failure,
) -> Result<(), AllocError>
    ensures { OnOk result (text.new ≡ text.old ++ failure_line program.now failure.now) }
{
    text.extend_from_slice(b"failed: ")?;
    push_invocation(text, alloc, program, &failure.v)?;
    text.extend_from_slice(b": ")?;
    text.extend_from_slice(kind_name(failure.fault.kind))?;
    text.extend_from_slice(b" at ")?;
    push_place(text, alloc, failure.fault.at)?;
    text.push(b'\n')?;
    Ok(())
}

// Appends the lines of failures.
fn push_failures(
    text: &mut Bytes,
    alloc: Global,
    program: &Program,
    failures: &[Failure],
) -> Result<(), AllocError>
    ensures { OnOk result (text.new ≡ text.old ++ flat_map (failure_line program.now) failures.now) }
{
    for failure in failures {
        push_failure(text, alloc, program, failure)?;
    }
    Ok(())
}

// The line that counts what was committed and what fails.
fn end_line(alloc: Global, committed: usize, failed: u32) -> Result<Bytes, AllocError>
    ensures { IfOk result (λ text. text ≡ end_line committed failed) }
{
    let mut text = Bytes::from_slice(alloc, b"end: ")?;
    push_number(&mut text, alloc, committed as u64)?;
    text.extend_from_slice(b" committed, ")?;
    push_number(&mut text, alloc, u64::from(failed))?;
    text.extend_from_slice(b" failed")?;
    text.push(b'\n')?;
    Ok(text)
}

/// The text at the end of a run: how many invocations it committed, how many fail, and a line for each of these failures.
pub fn end_text(
    alloc: Global,
    program: &Program,
    committed: usize,
    failed: u32,
    told: &[Failure],
) -> Result<Bytes, AllocError>
    ensures { IfOk result (λ text. text ≡ end_line committed failed ++ flat_map (failure_line program.now) told.now) }
{
    let mut text = end_line(alloc, committed, failed)?;
    push_failures(&mut text, alloc, program, told)?;
    Ok(text)
}

/// The text where the limit of commits is spent.
pub fn spent_text(alloc: Global, committed: usize) -> Result<Bytes, AllocError>
    ensures { IfOk result (λ text. text ≡ spent_text committed) }
{
    let mut text = Bytes::from_slice(alloc, b"spent: ")?;
    push_number(&mut text, alloc, committed as u64)?;
    text.extend_from_slice(b" committed")?;
    text.push(b'\n')?;
    Ok(text)
}

/// The text where a commit would leave too many invocations enabled.
pub fn crowded_text(alloc: Global, committed: usize) -> Result<Bytes, AllocError>
    ensures { IfOk result (λ text. text ≡ crowded_text committed) }
{
    let mut text = Bytes::from_slice(alloc, b"crowded: ")?;
    push_number(&mut text, alloc, committed as u64)?;
    text.extend_from_slice(b" committed, over 262144 enabled")?;
    text.push(b'\n')?;
    Ok(text)
}

/// The text for want of memory. It takes none.
pub fn memory_text() -> &'static [u8]
    ensures { result.now ≡ memory_text }
{
    b"memory\n"
}

// The name of a kind of refusal.
fn refused_name(kind: RefusedKind) -> &'static [u8]
    ensures { result.now ≡ refused_name kind }
{
    match kind {
        RefusedKind::BadByte => b"BadByte",
        RefusedKind::OpenComment => b"OpenComment",
        RefusedKind::OpenText => b"OpenText",
        RefusedKind::NumberRange => b"NumberRange",
        RefusedKind::Unexpected => b"Unexpected",
        RefusedKind::TooDeep => b"TooDeep",
        RefusedKind::Twice => b"Twice",
        RefusedKind::TooMany => b"TooMany",
        RefusedKind::Unknown => b"Unknown",
        RefusedKind::Mismatch => b"Mismatch",
        RefusedKind::Arity => b"Arity",
        RefusedKind::Fixed => b"Fixed",
        RefusedKind::Misplaced => b"Misplaced",
        RefusedKind::NoReturn => b"NoReturn",
    }
}

/// The text where a program's text is refused.
pub fn refused_text(alloc: Global, kind: RefusedKind, at: Place) -> Result<Bytes, AllocError>
    ensures { IfOk result (λ text. text ≡ refused_text kind at) }
{
    let mut text = Bytes::from_slice(alloc, b"refused: ")?;
    text.extend_from_slice(refused_name(kind))?;
    text.extend_from_slice(b" at ")?;
    push_place(&mut text, alloc, at)?;
    text.push(b'\n')?;
    Ok(text)
}

/// The text where a program is accepted, of so many classes (`StartupObject` among them), tag types and tasks.
pub fn ok_text(
    alloc: Global,
    classes: usize,
    tag_types: usize,
    tasks: usize,
) -> Result<Bytes, AllocError>
    ensures { IfOk result (λ text. text ≡ ok_text classes tag_types tasks) }
{
    let mut text = Bytes::from_slice(alloc, b"ok: ")?;
    push_number(&mut text, alloc, classes.saturating_sub(1) as u64)?;
    text.extend_from_slice(b" classes, ")?;
    push_number(&mut text, alloc, tag_types as u64)?;
    text.extend_from_slice(b" tag types, ")?;
    push_number(&mut text, alloc, tasks as u64)?;
    text.extend_from_slice(b" tasks")?;
    text.push(b'\n')?;
    Ok(text)
}
