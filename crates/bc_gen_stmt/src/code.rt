// The code of programs.

ghost use Rattle.std.specs.Prelude.{◌≡◌, map, IfOk, OnOk};
ghost use Rattle.bc_mean.specs.Values.{zero_of};
ghost use Rattle.bc_code.specs.Translation.{IsMethodUnit, IsTaskUnit, Translates};
ghost use Rattle.bc_gen_stmt.specs.Units.{Appended, HasClass, HasClasses, HasMaker};

use crate::units::{method_unit, task_unit};
use bc_code::code::{ClassCode, Code, Unit};
use bc_data::list::List;
use bc_data::program::{Class, Field, Method, Program, Shape, Task};
use bc_data::run::Value;
use std::alloc::{AllocError, Global};

/// The code of a program. Fails for want of memory; a unit that would pass 4,294,967,295 instructions counts as that.
pub fn generate(alloc: Global, program: &Program) -> Result<Code, AllocError>
    ensures { IfOk result (λ code. Translates program.now code) }
{
    let classes = program.classes();
    let mut units = List::new(alloc);
    put_tasks(alloc, &mut units, program.tasks(), classes)?;
    let codes = put_classes(alloc, &mut units, classes)?;
    Ok(Code {
        units,
        classes: codes,
    })
}

// Appends the units of the tasks, in order.
fn put_tasks(
    alloc: Global,
    units: &mut List<Unit>,
    tasks: &[Task],
    classes: &[Class],
) -> Result<(), AllocError>
    ensures { OnOk result (Appended (IsTaskUnit classes.now) tasks.now units.old units.new) }
{
    for task in tasks {
        units.push(task_unit(alloc, task, classes)?)?;
    }
    Ok(())
}

// Appends the units of the classes, one class behind the other.
fn put_classes(
    alloc: Global,
    units: &mut List<Unit>,
    classes: &[Class],
) -> Result<List<ClassCode>, AllocError>
    ensures { IfOk result (λ codes. HasClasses classes.now classes.now units.old units.new codes) }
{
    let mut codes = List::new(alloc);
    for class in classes {
        codes.push(put_class(alloc, units, class, classes)?)?;
    }
    Ok(codes)
}

// Appends the units of a class: that of its constructor, and then those of its methods.
fn put_class(
    alloc: Global,
    units: &mut List<Unit>,
    class: &Class,
    classes: &[Class],
) -> Result<ClassCode, AllocError>
    ensures { IfOk result (λ code. HasClass classes.now class.now units.old units.new code) }
{
    let cells = zero_cells(alloc, class.fields())?;
    let maker = put_maker(alloc, units, class, classes)?;
    let methods = unit_number(units.len())?;
    put_methods(alloc, units, class.methods(), classes)?;
    Ok(ClassCode {
        cells,
        maker,
        methods,
    })
}

// Appends the unit of a class's constructor, if it has one, and gives its number.
fn put_maker(
    alloc: Global,
    units: &mut List<Unit>,
    class: &Class,
    classes: &[Class],
) -> Result<Option<u32>, AllocError>
    ensures { IfOk result (λ number. HasMaker classes.now class.now.maker units.old units.new number) }
{
    match class.maker() {
        None => Ok(None),
        Some(method) => {
            let number = unit_number(units.len())?;
            units.push(method_unit(alloc, method, classes)?)?;
            Ok(Some(number))
        }
    }
}

// Appends the units of methods, in order.
fn put_methods(
    alloc: Global,
    units: &mut List<Unit>,
    methods: &[Method],
    classes: &[Class],
) -> Result<(), AllocError>
    ensures { OnOk result (Appended (IsMethodUnit classes.now) methods.now units.old units.new) }
{
    for method in methods {
        units.push(method_unit(alloc, method, classes)?)?;
    }
    Ok(())
}

// A unit's number, where it fits.
fn unit_number(n: usize) -> Result<u32, AllocError>
    ensures { IfOk result (λ number. number ≡ n) }
{
    u32::try_from(n).map_err(|_| AllocError)
}

// The cells of a new object.
fn zero_cells(alloc: Global, fields: &[Field]) -> Result<List<Value>, AllocError>
    ensures { IfOk result (λ cells. cells ≡ map (λ x. zero_of x.shape) fields.now) }
{
    let mut cells = List::new(alloc);
    for x in fields {
        cells.push(zero_of(x.shape))?;
    }
    Ok(cells)
}

// The value of a cell at first.
fn zero_of(shape: Shape) -> Value
    ensures { result ≡ zero_of shape }
{
    match shape {
        Shape::Int => Value::Int(0),
        Shape::Bool => Value::Bool(false),
        Shape::Null => Value::Null,
        Shape::Class(_) => Value::Null,
        Shape::Ints => Value::Null,
        Shape::Bools => Value::Null,
        Shape::Objects(_) => Value::Null,
    }
}
