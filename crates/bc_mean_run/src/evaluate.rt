// Expressions, and the calls in them.

ghost use Rattle.std.specs.Prelude.{◌≡◌, ◌<◌};
ghost use Rattle.bc_data.specs.Typed.{Make, NoArg};
ghost use Rattle.bc_data.specs.ProgramView.{expr_views, view_expr};
ghost use Rattle.bc_mean.specs.Work.{and_then, known};
ghost use Rattle.bc_mean.specs.Evaluate.{call_on, construct, evaluate, evaluate_all, operate};
ghost use Rattle.bc_mean.specs.Execute.{perform};
ghost use Rattle.bc_mean_run.specs.Weights.{above_all, class_weight, method_weight};
ghost use Rattle.bc_mean_run.specs.Tree.{Mirrors, calls_of, finished, operands, read_element, world_of};

use crate::execute::statements;
use crate::finish::finished;
use crate::frame::{Flow, Frame, Operands, behind};
use crate::halt::{Halt, Interrupt};
use crate::making::{class_at, make_object, method_at, tweak_all};
use crate::objects::{known, reach, read_element};
use crate::operators::{combined, decided};
use crate::run::Run;
use crate::stage::Stage;
use crate::values::int_value;
use bc_data::list::List;
use bc_data::program::{Class, Expr, Method, Op, Tweak};
use bc_data::run::{Place, Value};

/// The value of an expression. Frames on the way to its parts are kept small, since parts nest deep.
#[cycle(run)]
pub fn expression(
    stage: &Stage<'_>,
    frame: &Frame,
    e: &Expr,
    run: &mut Run,
) -> Result<Value, Interrupt>
    ensures { Mirrors result (λ x. x) run.new (evaluate (world_of stage.now) (calls_of stage.now) frame.now (view_expr e.now) run.old) }
{
    match e {
        Expr::Int(n) => Ok(int_value(*n)),
        Expr::Truth(b) => Ok(Value::Bool(*b)),
        Expr::Null => Ok(Value::Null),
        Expr::Local(slot) => known(frame.slot(*slot), run),
        Expr::Neg(inner) => unary(stage, frame, e, inner, run),
        Expr::Not(inner) => unary(stage, frame, e, inner, run),
        Expr::Two(at, op, a, b) => operation(stage, frame, *at, *op, a, b, run),
        Expr::Field(_, object, _) => unary(stage, frame, e, object, run),
        Expr::Length(_, array) => unary(stage, frame, e, array, run),
        Expr::Elem(at, array, index) => element(stage, frame, *at, array, index, run),
        Expr::Call(at, object, class, method, args) => {
            called(stage, frame, *at, object, *class, *method, args, run)
        }
        Expr::Make(at, class, args, tweaks) => {
            make(stage, frame, *at, *class, args, tweaks, run)
        }
        Expr::Array(_, _, size) => unary(stage, frame, e, size, run),
    }
}

// An expression of one operand.
#[cycle(run)]
fn unary(
    stage: &Stage<'_>,
    frame: &Frame,
    e: &Expr,
    operand: &Expr,
    run: &mut Run,
) -> Result<Value, Interrupt>
    ensures { Mirrors result (λ x. x) run.new (and_then (evaluate (world_of stage.now) (calls_of stage.now) frame.now (view_expr operand.now) run.old) (finished (world_of stage.now) (view_expr e.now))) }
{
    let x = expression(stage, frame, operand, run)?;
    finished(stage, e, x, run)
}

// An operator: its left operand, and its right one, which `&&` and `||` may leave out.
#[cycle(run)]
#[tactic(auto, using(crate::proofs::Arms::operate_is))]
fn operation(
    stage: &Stage<'_>,
    frame: &Frame,
    at: Place,
    op: Op,
    a: &Expr,
    b: &Expr,
    run: &mut Run,
) -> Result<Value, Interrupt>
    ensures { Mirrors result (λ x. x) run.new (and_then (evaluate (world_of stage.now) (calls_of stage.now) frame.now (view_expr a.now) run.old) (λ x v. operate at op x (evaluate (world_of stage.now) (calls_of stage.now) frame.now (view_expr b.now)) v)) }
{
    let x = expression(stage, frame, a, run)?;
    match decided(op, x, run)? {
        Some(y) => Ok(y),
        None => {
            let y = expression(stage, frame, b, run)?;
            combined(at, op, x, y, run)
        }
    }
}

// An element: the array, the index, the test for `null`, the touch, the bounds.
#[cycle(run)]
fn element(
    stage: &Stage<'_>,
    frame: &Frame,
    at: Place,
    array: &Expr,
    index: &Expr,
    run: &mut Run,
) -> Result<Value, Interrupt>
    ensures { Mirrors result (λ x. x) run.new (and_then (evaluate (world_of stage.now) (calls_of stage.now) frame.now (view_expr array.now) run.old) (λ x v. and_then (evaluate (world_of stage.now) (calls_of stage.now) frame.now (view_expr index.now) v) (λ i u. read_element (world_of stage.now).look at x i u))) }
{
    let x = expression(stage, frame, array, run)?;
    let i = expression(stage, frame, index, run)?;
    read_element(stage, at, x, i, run)
}

// Arguments, from left to right.
#[cycle(run)]
fn arguments(
    stage: &Stage<'_>,
    frame: &Frame,
    es: &[Expr],
    run: &mut Run,
) -> Result<List<Value>, Interrupt>
    ensures { Mirrors result (λ xs. xs) run.new (evaluate_all (world_of stage.now) (calls_of stage.now) frame.now (expr_views es.now NoArg) run.old) }
{
    let mut xs = List::new(stage.alloc);
    for e in es {
        let x = expression(stage, frame, e, run)?;
        xs.push(x)?;
    }
    Ok(xs)
}

// The object and the arguments of a call.
#[cycle(run)]
fn operands(
    stage: &Stage<'_>,
    frame: &Frame,
    object: &Expr,
    args: &[Expr],
    run: &mut Run,
) -> Result<Operands, Interrupt>
    ensures { Mirrors result (λ o. o) run.new (operands (world_of stage.now) (calls_of stage.now) frame.now (view_expr object.now) (expr_views args.now NoArg) run.old) }
{
    let object = expression(stage, frame, object, run)?;
    let arguments = arguments(stage, frame, args, run)?;
    Ok(Operands { object, arguments })
}

// A call once its operands are known: the test for `null`, the touch, the call itself. It may have a result.
#[cycle(run)]
fn call(
    stage: &Stage<'_>,
    at: Place,
    class: u32,
    method: u32,
    o: Operands,
    run: &mut Run,
) -> Result<Option<Value>, Interrupt>
    ensures { Mirrors result (λ r. r) run.new (call_on (world_of stage.now) (calls_of stage.now) at class method o.object o.arguments run.old) }
{
    let Operands { object, arguments } = o;
    let _ = reach(stage, at, object, run)?;
    let m = method_at(stage, class, method, run)?;
    let first = behind(object, arguments)?;
    invoke(stage, at, m, first, run)
}

// A call with a result, as a value.
#[cycle(run)]
fn called(
    stage: &Stage<'_>,
    frame: &Frame,
    at: Place,
    object: &Expr,
    class: u32,
    method: u32,
    args: &[Expr],
    run: &mut Run,
) -> Result<Value, Interrupt>
    ensures { Mirrors result (λ x. x) run.new (and_then (operands (world_of stage.now) (calls_of stage.now) frame.now (view_expr object.now) (expr_views args.now NoArg) run.old) (λ o v. and_then (call_on (world_of stage.now) (calls_of stage.now) at class method o.object o.arguments v) known)) }
{
    let o = operands(stage, frame, object, args, run)?;
    let result = call(stage, at, class, method, o, run)?;
    known(result, run)
}

// What a call does, from its turn on.
#[cycle(run)]
fn invoke(
    stage: &Stage<'_>,
    at: Place,
    m: &Method,
    first: List<Value>,
    run: &mut Run,
) -> Result<Option<Value>, Interrupt>
    requires { method_weight m.now < above_all (world_of stage.now).classes }
    ensures { Mirrors result (λ r. r) run.new (calls_of stage.now at m.now first run.old) }
{
    run.enter(at, stage.depth)?;
    if stage.left == 0 {
        return Err(Interrupt::Halted(Halt::Wrong));
    }
    let inner = Stage {
        alloc: stage.alloc,
        store: stage.store,
        classes: stage.classes,
        objects: stage.objects,
        left: stage.left - 1,
        depth: stage.depth + 1,
    };
    let mut frame = Frame::of_method(stage.alloc, m, first)?;
    match statements(&inner, &mut frame, m.body(), run)? {
        Flow::Goes => Ok(None),
        Flow::Returns(result) => Ok(result),
        Flow::Leaves => Err(Interrupt::Halted(Halt::Wrong)),
    }
}

// Where the class has a constructor it runs, and then there is the new object.
#[cycle(run)]
fn construct(
    stage: &Stage<'_>,
    at: Place,
    k: &Class,
    n: u32,
    xs: List<Value>,
    run: &mut Run,
) -> Result<Value, Interrupt>
    requires { class_weight k.now < above_all (world_of stage.now).classes }
    ensures { Mirrors result (λ x. x) run.new (construct (calls_of stage.now) at k.now.maker n xs run.old) }
{
    match k.maker() {
        None => Ok(Value::New(n)),
        Some(m) => {
            let first = behind(Value::New(n), xs)?;
            let _ = invoke(stage, at, m, first, run)?;
            Ok(Value::New(n))
        }
    }
}

// A new object: the arguments, the object with its sizes, the braces, the constructor.
#[cycle(run)]
fn make(
    stage: &Stage<'_>,
    frame: &Frame,
    at: Place,
    class: u32,
    args: &[Expr],
    tweaks: &[Tweak],
    run: &mut Run,
) -> Result<Value, Interrupt>
    ensures { Mirrors result (λ x. x) run.new (evaluate (world_of stage.now) (calls_of stage.now) frame.now (Make at class (expr_views args.now NoArg) tweaks.now) run.old) }
{
    let xs = arguments(stage, frame, args, run)?;
    let k = class_at(stage, class, run)?;
    let n = make_object(stage.alloc, at, class, k, run)?;
    tweak_all(stage, frame, n, tweaks, run)?;
    construct(stage, at, k, n, xs, run)
}

/// A call as a statement, with a result or without.
#[cycle(run)]
pub fn performed(
    stage: &Stage<'_>,
    frame: &Frame,
    e: &Expr,
    run: &mut Run,
) -> Result<Option<Value>, Interrupt>
    ensures { Mirrors result (λ r. r) run.new (perform (world_of stage.now) (calls_of stage.now) frame.now (view_expr e.now) run.old) }
{
    match e {
        Expr::Call(at, object, class, method, args) => {
            let o = operands(stage, frame, object, args, run)?;
            call(stage, *at, *class, *method, o, run)
        }
        _ => Err(Interrupt::Halted(Halt::Wrong)),
    }
}
