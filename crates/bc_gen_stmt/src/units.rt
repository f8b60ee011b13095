// The units of tasks, methods and constructors.

ghost use Rattle.std.specs.Prelude.{IfOk, OnOk};
ghost use Rattle.bc_code.specs.Translation.{behind_end, IsEnd, IsMethodUnit, IsTaskUnit};
ghost use Rattle.bc_code.specs.Emitted.{Emitted, IsGrowing};

use crate::statements::statements;
use bc_code::code::{Instruction, Unit};
use bc_data::list::List;
use bc_data::program::{Class, Method, Shape, Task};
use bc_gen_expr::emit::{NOWHERE, put};
use std::alloc::{AllocError, Global};

/// The unit of a task.
pub fn task_unit(alloc: Global, task: &Task, classes: &[Class]) -> Result<Unit, AllocError>
    ensures { IfOk result (λ u. IsTaskUnit classes.now task.now u) }
{
    let mut unit = Unit {
        code: List::new(alloc),
        places: List::new(alloc),
        locals: task.locals(),
        tags: task.tags(),
    };
    statements(alloc, &mut unit, task.body(), classes)?;
    put(&mut unit, Instruction::Exit, NOWHERE)?;
    Ok(unit)
}

/// The unit of a method or a constructor.
pub fn method_unit(alloc: Global, method: &Method, classes: &[Class]) -> Result<Unit, AllocError>
    ensures { IfOk result (λ u. IsMethodUnit classes.now method.now u) }
{
    let mut unit = Unit {
        code: List::new(alloc),
        places: List::new(alloc),
        locals: method.locals(),
        tags: 0,
    };
    statements(alloc, &mut unit, method.body(), classes)?;
    put_end(&mut unit, method.result())?;
    Ok(unit)
}

// A method without a result may come to its end. One with a result doesn't.
fn put_end(out: &mut Unit, result_shape: Option<Shape>) -> Result<(), AllocError>
    requires { IsGrowing out.old }
    ensures { OnOk result (Emitted (λ T p. IsEnd T p result_shape) (behind_end result_shape) out.old out.new) }
{
    match result_shape {
        None => put(out, Instruction::Return, NOWHERE),
        Some(_) => {
            put(out, Instruction::Null, NOWHERE)?;
            put(out, Instruction::ReturnValue, NOWHERE)
        }
    }
}
