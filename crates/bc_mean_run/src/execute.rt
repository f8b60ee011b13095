// Statements.

ghost use Rattle.std.specs.Prelude.{◌≡◌, true, map};
ghost use Rattle.bc_data.specs.Typed.{Nothing};
ghost use Rattle.bc_data.specs.ProgramView.{program_stat_views, view_expr, view_part, view_program_stat};
ghost use Rattle.bc_mean.specs.Work.{and_then};
ghost use Rattle.bc_mean.specs.Evaluate.{evaluate};
ghost use Rattle.bc_mean.specs.Execute.{execute, execute_all, loop, print_part, print_parts};
ghost use Rattle.bc_mean_run.specs.Tree.{Mirrors, branched, calls_of, condition, flow_seen, is_plain, world_of};

use crate::acting::{act_all, assert_true, say_number, say_truth};
use crate::evaluate::{expression, performed};
use crate::frame::{Flow, Frame};
use crate::halt::{Halt, Interrupt};
use crate::objects::{write_element, write_field};
use crate::operators::truth;
use crate::run::Run;
use crate::stage::Stage;
use bc_data::program::{Expr, Part, Stat};
use bc_data::run::{Place, TagRef};

// One item of a `print`.
#[cycle(run)]
fn print_one(
    stage: &Stage<'_>,
    frame: &Frame,
    at: Place,
    part: &Part,
    run: &mut Run,
) -> Result<(), Interrupt>
    ensures { Mirrors result (λ _. tt) run.new (print_part (world_of stage.now) (calls_of stage.now) frame.now at (view_part part.now) run.old) }
{
    match part {
        Part::Text(bytes) => run.say(at, bytes.as_slice()),
        Part::Number(e) => {
            let x = expression(stage, frame, e, run)?;
            say_number(stage.alloc, at, x, run)
        }
        Part::Truth(e) => {
            let x = expression(stage, frame, e, run)?;
            say_truth(at, x, run)
        }
    }
}

// Each item is evaluated and appended before the next.
#[cycle(run)]
fn print(
    stage: &Stage<'_>,
    frame: &Frame,
    at: Place,
    parts: &[Part],
    run: &mut Run,
) -> Result<(), Interrupt>
    ensures { Mirrors result (λ _. tt) run.new (print_parts (world_of stage.now) (calls_of stage.now) frame.now at (map view_part parts.now) run.old) }
{
    for part in parts {
        print_one(stage, frame, at, part, run)?;
    }
    Ok(())
}

// A condition.
#[cycle(run)]
fn condition(stage: &Stage<'_>, frame: &Frame, e: &Expr, run: &mut Run) -> Result<bool, Interrupt>
    ensures { Mirrors result (λ b. b) run.new (condition (world_of stage.now) (calls_of stage.now) frame.now (view_expr e.now) run.old) }
{
    let x = expression(stage, frame, e, run)?;
    truth(x, run)
}

// An `if`.
#[cycle(run)]
fn branch(
    stage: &Stage<'_>,
    frame: &mut Frame,
    test: &Expr,
    body: &[Stat],
    other: &[Stat],
    run: &mut Run,
) -> Result<Flow, Interrupt>
    ensures { Mirrors result (λ flow. flow_seen flow frame.new) run.new (and_then (condition (world_of stage.now) (calls_of stage.now) frame.old (view_expr test.now) run.old) (branched (world_of stage.now) (calls_of stage.now) stage.now.left frame.old (program_stat_views body.now Nothing) (program_stat_views other.now Nothing))) }
{
    if condition(stage, frame, test, run)? {
        statements(stage, frame, body, run)
    } else {
        statements(stage, frame, other, run)
    }
}

// A `while`. Each round takes a turn.
#[cycle(run)]
fn repeat(
    stage: &Stage<'_>,
    frame: &mut Frame,
    at: Place,
    test: &Expr,
    body: &[Stat],
    run: &mut Run,
) -> Result<Flow, Interrupt>
    ensures { Mirrors result (λ flow. flow_seen flow frame.new) run.new (loop stage.now.left at (λ g v. evaluate (world_of stage.now) (calls_of stage.now) g (view_expr test.now) v) (λ g v. execute_all (world_of stage.now) (calls_of stage.now) stage.now.left g (program_stat_views body.now Nothing) v) frame.old run.old) }
{
    let mut more = stage.left;
    loop {
        if !condition(stage, frame, test, run)? {
            return Ok(Flow::Goes);
        }
        run.turn(at)?;
        match statements(stage, frame, body, run)? {
            Flow::Goes => {}
            Flow::Returns(result) => return Ok(Flow::Returns(result)),
            Flow::Leaves => return Ok(Flow::Leaves),
        }
        if more == 0 {
            return Err(Interrupt::Halted(Halt::Wrong));
        }
        more -= 1;
    }
}

// A statement without others in it.
#[cycle(run)]
fn plain(stage: &Stage<'_>, frame: &mut Frame, s: &Stat, run: &mut Run) -> Result<Flow, Interrupt>
    requires { is_plain (view_program_stat s.now) ≡ true }
    ensures { Mirrors result (λ flow. flow_seen flow frame.new) run.new (execute (world_of stage.now) (calls_of stage.now) stage.now.left frame.old (view_program_stat s.now) run.old) }
{
    match s {
        Stat::Set(slot, e) => {
            let x = expression(stage, frame, e, run)?;
            frame.set_slot(*slot, x);
            Ok(Flow::Goes)
        }
        Stat::NewTag(at, variable, tag_type) => {
            let i = run.make_instance(*at, *tag_type)?;
            frame.set_tag(*variable, TagRef::New(i));
            Ok(Flow::Goes)
        }
        Stat::SetField(at, object, field, e) => {
            let x = expression(stage, frame, object, run)?;
            let y = expression(stage, frame, e, run)?;
            write_field(stage, *at, x, *field, y, run)?;
            Ok(Flow::Goes)
        }
        Stat::SetElem(at, array, index, e) => {
            let x = expression(stage, frame, array, run)?;
            let i = expression(stage, frame, index, run)?;
            let y = expression(stage, frame, e, run)?;
            write_element(stage, *at, x, i, y, run)?;
            Ok(Flow::Goes)
        }
        Stat::Drop(e) => {
            let _ = expression(stage, frame, e, run)?;
            Ok(Flow::Goes)
        }
        Stat::Perform(e) => {
            let _ = performed(stage, frame, e, run)?;
            Ok(Flow::Goes)
        }
        Stat::Return(None) => Ok(Flow::Returns(None)),
        Stat::Return(Some(e)) => {
            let x = expression(stage, frame, e, run)?;
            Ok(Flow::Returns(Some(x)))
        }
        Stat::Print(at, parts) => {
            print(stage, frame, *at, parts, run)?;
            Ok(Flow::Goes)
        }
        Stat::Assert(at, e) => {
            let x = expression(stage, frame, e, run)?;
            assert_true(*at, x, run)?;
            Ok(Flow::Goes)
        }
        Stat::Exit(changes) => {
            act_all(stage, frame, changes, run)?;
            Ok(Flow::Leaves)
        }
        Stat::If(_, _, _) => unreachable!(),
        Stat::While(_, _, _) => unreachable!(),
        Stat::Block(_) => unreachable!(),
    }
}

// One statement.
#[cycle(run)]
fn statement(
    stage: &Stage<'_>,
    frame: &mut Frame,
    s: &Stat,
    run: &mut Run,
) -> Result<Flow, Interrupt>
    ensures { Mirrors result (λ flow. flow_seen flow frame.new) run.new (execute (world_of stage.now) (calls_of stage.now) stage.now.left frame.old (view_program_stat s.now) run.old) }
{
    match s {
        Stat::If(test, body, other) => branch(stage, frame, test, body, other, run),
        Stat::While(at, test, body) => repeat(stage, frame, *at, test, body, run),
        Stat::Block(body) => statements(stage, frame, body, run),
        _ => plain(stage, frame, s, run),
    }
}

/// Statements in order, up to one that leaves.
#[cycle(run)]
pub fn statements(
    stage: &Stage<'_>,
    frame: &mut Frame,
    body: &[Stat],
    run: &mut Run,
) -> Result<Flow, Interrupt>
    ensures { Mirrors result (λ flow. flow_seen flow frame.new) run.new (execute_all (world_of stage.now) (calls_of stage.now) stage.now.left frame.old (program_stat_views body.now Nothing) run.old) }
{
    for s in body {
        match statement(stage, frame, s, run) {
            Ok(Flow::Goes) => {}
            Ok(Flow::Returns(result)) => return Ok(Flow::Returns(result)),
            Ok(Flow::Leaves) => return Ok(Flow::Leaves),
            Err(interrupt) => return Err(interrupt),
        }
    }
    Ok(Flow::Goes)
}
