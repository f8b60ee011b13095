// New objects, and the braces of a `new`.

ghost use Rattle.std.specs.Prelude.{◌≡◌, ◌<◌, map, slice_get, IfOk};
ghost use Rattle.bc_mean.specs.Values.{zero_of};
ghost use Rattle.bc_mean.specs.Work.{known, make};
ghost use Rattle.bc_mean.specs.Evaluate.{make_array, method_in, tweak_all, tweak_one, zero_array, zero_object};
ghost use Rattle.bc_mean_run.specs.Weights.{above_all, class_weight, method_weight};
ghost use Rattle.bc_mean_run.specs.Tree.{Mirrors, world_of};

use crate::frame::{Frame, pad_values};
use crate::halt::{Halt, Interrupt};
use crate::objects::{bind, copied, set_flag};
use crate::run::{Object, Run, fault};
use crate::stage::Stage;
use crate::values::{zero_in, zero_of};
use bc_data::list::List;
use bc_data::program::{Class, Field, Method, Tweak};
use bc_data::run::{Body, FaultKind, Kind, Place, TagRef, Value};
use std::alloc::{AllocError, Global};

/// The instance of a tag variable, wherever an accepted program asks for one.
pub fn known_tag(tag: Option<TagRef>, run: &Run) -> Result<TagRef, Interrupt>
    ensures { Mirrors result (λ t. t) run.now (known tag run.now) }
{
    match tag {
        Some(tag) => Ok(tag),
        None => Err(Interrupt::Halted(Halt::Wrong)),
    }
}

// The cells of an object at first.
fn zero_cells(alloc: Global, fields: &[Field]) -> Result<List<Value>, AllocError>
    ensures { IfOk result (λ l. l ≡ map (λ x. zero_of x.shape) fields.now) }
{
    let mut cells = List::new(alloc);
    for x in fields {
        cells.push(zero_of(x.shape))?;
    }
    Ok(cells)
}

/// A new object of a class.
pub fn make_object(
    alloc: Global,
    at: Place,
    c: u32,
    k: &Class,
    run: &mut Run,
) -> Result<u32, Interrupt>
    ensures { Mirrors result (λ n. n) run.new (make at (zero_object c k.now) run.old) }
{
    let cells = zero_cells(alloc, k.fields())?;
    let body = Body {
        kind: Kind::Class(c),
        cells,
        flags: 0,
        tags: List::new(alloc),
    };
    run.make(at, body)
}

fn zero_array(alloc: Global, kind: Kind, size: u32) -> Result<Body, AllocError>
    ensures { IfOk result (λ b. b ≡ zero_array kind size) }
{
    let mut cells = List::new(alloc);
    pad_values(&mut cells, size, zero_in(kind))?;
    Ok(Body {
        kind,
        cells,
        flags: 0,
        tags: List::new(alloc),
    })
}

/// A new array. It has 0 to 65,536 elements.
pub fn make_array(
    alloc: Global,
    at: Place,
    kind: Kind,
    size: Value,
    run: &mut Run,
) -> Result<Value, Interrupt>
    ensures { Mirrors result (λ x. x) run.new (make_array at kind size run.old) }
{
    match size {
        Value::Int(n) => {
            if n < 0 {
                return Err(fault(FaultKind::Size, at));
            }
            if n > 65536 {
                return Err(fault(FaultKind::Size, at));
            }
            let body = zero_array(alloc, kind, n as u32)?;
            let i = run.make(at, body)?;
            Ok(Value::New(i))
        }
        _ => Err(Interrupt::Halted(Halt::Wrong)),
    }
}

// An action in the braces of a `new` on the new object with this number.
fn tweak_one(
    stage: &Stage<'_>,
    frame: &Frame,
    n: u32,
    tweak: Tweak,
    run: &mut Run,
) -> Result<(), Interrupt>
    ensures { Mirrors result (λ _. tt) run.new (tweak_one frame.now n tweak run.old) }
{
    match tweak {
        Tweak::Flag(flag, b) => {
            let o = copied(stage, Object::New(n), run)?;
            set_flag(o, flag, b, run)
        }
        Tweak::Add(at, variable) => {
            let o = copied(stage, Object::New(n), run)?;
            let t = known_tag(frame.tag(variable), run)?;
            bind(at, o, t, run)
        }
    }
}

/// The actions in the braces of a `new`.
pub fn tweak_all(
    stage: &Stage<'_>,
    frame: &Frame,
    n: u32,
    tweaks: &[Tweak],
    run: &mut Run,
) -> Result<(), Interrupt>
    ensures { Mirrors result (λ _. tt) run.new (tweak_all frame.now n tweaks.now run.old) }
{
    for tweak in tweaks {
        tweak_one(stage, frame, n, *tweak, run)?;
    }
    Ok(())
}

/// A class of the program.
pub fn class_at<'a>(stage: &Stage<'a>, c: u32, run: &Run) -> Result<&'a Class, Interrupt>
    ensures answers { Mirrors result (λ k. k.now) run.now (known (slice_get (world_of stage.now).classes c) run.now) }
    ensures below { IfOk result (λ k. class_weight k.now < above_all (world_of stage.now).classes) }
{
    match stage.classes.get(c as usize) {
        Some(k) => Ok(k),
        None => Err(Interrupt::Halted(Halt::Wrong)),
    }
}

/// A method of a class.
pub fn method_at<'a>(stage: &Stage<'a>, c: u32, n: u32, run: &Run) -> Result<&'a Method, Interrupt>
    ensures answers { Mirrors result (λ m. m.now) run.now (known (method_in (world_of stage.now) c n) run.now) }
    ensures below { IfOk result (λ m. method_weight m.now < above_all (world_of stage.now).classes) }
{
    match stage.classes.get(c as usize) {
        Some(k) => match k.methods().get(n as usize) {
            Some(m) => Ok(m),
            None => Err(Interrupt::Halted(Halt::Wrong)),
        },
        None => Err(Interrupt::Halted(Halt::Wrong)),
    }
}
