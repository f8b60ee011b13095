// The listing of a program's code: a line for each unit and for each instruction.

ghost use Rattle.std.specs.Prelude.{◌≡◌, ◌++◌, ◌∷◌, map, slice_get, IfOk, OnOk};
ghost use Rattle.std.specs.List.{flat_map, zip, enumerate_from};
ghost use Rattle.std.specs.Fmt.{decimal, signed_decimal};
ghost use Rattle.bc_code.specs.Listing.{truth_text, escaped_byte, text_literal, class_name, kind_text, behind_space, words_of, instruction_line, task_name, maker_names, method_name, class_names, unit_names, unit_text, listing_text};

use crate::code::{Code, Instruction, Unit};
use bc_data::list::{Bytes, List};
use bc_data::program::{Class, Method, Program, Task};
use bc_data::run::Kind;
use bc_data::text::{decimal, natural};
use std::alloc::{AllocError, Global};

// Appends a byte of a text as it stands between quotes.
fn push_escaped_byte(text: &mut Bytes, byte: u8) -> Result<(), AllocError>
    ensures { OnOk result (text.new ≡ text.old ++ escaped_byte byte) }
{
    match byte {
        b'\n' => text.extend_from_slice(b"\\n"),
        b'\t' => text.extend_from_slice(b"\\t"),
        b'"' => text.extend_from_slice(b"\\\""),
        b'\\' => text.extend_from_slice(b"\\\\"),
        _ => text.extend_from_slice(&[byte]),
    }
}

fn push_escaped(text: &mut Bytes, bytes: &[u8]) -> Result<(), AllocError>
    ensures { OnOk result (text.new ≡ text.old ++ flat_map escaped_byte bytes.now) }
{
    for byte in bytes {
        push_escaped_byte(text, *byte)?;
    }
    Ok(())
}

// Appends a text between quotes, with its escapes.
fn push_literal(text: &mut Bytes, bytes: &[u8]) -> Result<(), AllocError>
    ensures { OnOk result (text.new ≡ text.old ++ text_literal bytes.now) }
{
    text.extend_from_slice(b"\"")?;
    push_escaped(text, bytes)?;
    text.extend_from_slice(b"\"")
}

// The name of a class; nothing for a number that no class has.
fn class_name(program: &Program, class: u32) -> &[u8]
    ensures { result.now ≡ class_name (slice_get program.now.classes class) }
{
    match program.classes().get(class as usize) {
        Some(class) => class.name(),
        None => b"",
    }
}

// Appends a kind: what the elements of an array are, and brackets, or the class of an object.
fn push_kind(text: &mut Bytes, program: &Program, kind: Kind) -> Result<(), AllocError>
    ensures { OnOk result (text.new ≡ text.old ++ kind_text program.now kind) }
{
    match kind {
        Kind::Class(class) => text.extend_from_slice(class_name(program, class)),
        Kind::Ints => text.extend_from_slice(b"int[]"),
        Kind::Bools => text.extend_from_slice(b"bool[]"),
        Kind::Objects(class) => {
            text.extend_from_slice(class_name(program, class))?;
            text.extend_from_slice(b"[]")
        }
    }
}

fn push_truth(text: &mut Bytes, truth: bool) -> Result<(), AllocError>
    ensures { OnOk result (text.new ≡ text.old ++ truth_text truth) }
{
    if truth {
        text.extend_from_slice(b"true")
    } else {
        text.extend_from_slice(b"false")
    }
}

// Appends a number behind a space.
fn push_number(text: &mut Bytes, alloc: Global, number: u32) -> Result<(), AllocError>
    ensures { OnOk result (text.new ≡ text.old ++ behind_space (decimal number)) }
{
    text.extend_from_slice(b" ")?;
    text.extend_from_slice(natural(alloc, u64::from(number))?.as_slice())
}

fn push_numbers(text: &mut Bytes, alloc: Global, numbers: &[u32]) -> Result<(), AllocError>
    ensures { OnOk result (text.new ≡ text.old ++ flat_map (λ n. behind_space (decimal n)) numbers.now) }
{
    for number in numbers {
        push_number(text, alloc, *number)?;
    }
    Ok(())
}

// Appends a name and numbers, each behind a space.
fn push_words(
    text: &mut Bytes,
    alloc: Global,
    name: &[u8],
    numbers: &[u32],
) -> Result<(), AllocError>
    ensures { OnOk result (text.new ≡ text.old ++ (behind_space name.now ++ flat_map (λ n. behind_space (decimal n)) numbers.now)) }
{
    text.extend_from_slice(b" ")?;
    text.extend_from_slice(name)?;
    push_numbers(text, alloc, numbers)
}

// Appends the name and the operands of an instruction, each behind a space.
fn push_instruction(
    text: &mut Bytes,
    alloc: Global,
    program: &Program,
    instruction: &Instruction,
) -> Result<(), AllocError>
    ensures { OnOk result (text.new ≡ text.old ++ flat_map behind_space (words_of program.now instruction.now)) }
{
    match instruction {
        Instruction::Int(number) => {
            text.extend_from_slice(b" Int ")?;
            text.extend_from_slice(decimal(alloc, i64::from(*number))?.as_slice())
        }
        Instruction::Bool(truth) => {
            text.extend_from_slice(b" Bool ")?;
            push_truth(text, *truth)
        }
        Instruction::Null => push_words(text, alloc, b"Null", &[]),
        Instruction::Load(slot) => push_words(text, alloc, b"Load", &[*slot]),
        Instruction::Store(slot) => push_words(text, alloc, b"Store", &[*slot]),
        Instruction::Pop => push_words(text, alloc, b"Pop", &[]),
        Instruction::Neg => push_words(text, alloc, b"Neg", &[]),
        Instruction::Not => push_words(text, alloc, b"Not", &[]),
        Instruction::Add => push_words(text, alloc, b"Add", &[]),
        Instruction::Sub => push_words(text, alloc, b"Sub", &[]),
        Instruction::Mul => push_words(text, alloc, b"Mul", &[]),
        Instruction::Div => push_words(text, alloc, b"Div", &[]),
        Instruction::Rem => push_words(text, alloc, b"Rem", &[]),
        Instruction::Less => push_words(text, alloc, b"Less", &[]),
        Instruction::LessEq => push_words(text, alloc, b"LessEq", &[]),
        Instruction::More => push_words(text, alloc, b"More", &[]),
        Instruction::MoreEq => push_words(text, alloc, b"MoreEq", &[]),
        Instruction::Same => push_words(text, alloc, b"Same", &[]),
        Instruction::Differ => push_words(text, alloc, b"Differ", &[]),
        Instruction::Jump(target) => push_words(text, alloc, b"Jump", &[*target]),
        Instruction::JumpIf(target) => push_words(text, alloc, b"JumpIf", &[*target]),
        Instruction::JumpIfNot(target) => push_words(text, alloc, b"JumpIfNot", &[*target]),
        Instruction::Turn => push_words(text, alloc, b"Turn", &[]),
        Instruction::Field(field) => push_words(text, alloc, b"Field", &[*field]),
        Instruction::SetField(field) => push_words(text, alloc, b"SetField", &[*field]),
        Instruction::Length => push_words(text, alloc, b"Length", &[]),
        Instruction::Elem => push_words(text, alloc, b"Elem", &[]),
        Instruction::SetElem => push_words(text, alloc, b"SetElem", &[]),
        Instruction::NewObject(class) => push_words(text, alloc, b"NewObject", &[*class]),
        Instruction::NewArray(kind) => {
            text.extend_from_slice(b" NewArray ")?;
            push_kind(text, program, *kind)
        }
        Instruction::SetFlag(flag, truth) => {
            push_words(text, alloc, b"SetFlag", &[*flag])?;
            text.extend_from_slice(b" ")?;
            push_truth(text, *truth)
        }
        Instruction::AddTag(variable) => push_words(text, alloc, b"AddTag", &[*variable]),
        Instruction::Make(class, count) => push_words(text, alloc, b"Make", &[*class, *count]),
        Instruction::Call(class, method, count) => {
            push_words(text, alloc, b"Call", &[*class, *method, *count])
        }
        Instruction::Return => push_words(text, alloc, b"Return", &[]),
        Instruction::ReturnValue => push_words(text, alloc, b"ReturnValue", &[]),
        Instruction::PrintText(bytes) => {
            text.extend_from_slice(b" PrintText ")?;
            push_literal(text, bytes.as_slice())
        }
        Instruction::PrintInt => push_words(text, alloc, b"PrintInt", &[]),
        Instruction::PrintBool => push_words(text, alloc, b"PrintBool", &[]),
        Instruction::Assert => push_words(text, alloc, b"Assert", &[]),
        Instruction::NewTag(variable, tag_type) => {
            push_words(text, alloc, b"NewTag", &[*variable, *tag_type])
        }
        Instruction::ExitFlag(parameter, flag, truth) => {
            push_words(text, alloc, b"ExitFlag", &[*parameter, *flag])?;
            text.extend_from_slice(b" ")?;
            push_truth(text, *truth)
        }
        Instruction::ExitClear(parameter, variable) => {
            push_words(text, alloc, b"ExitClear", &[*parameter, *variable])
        }
        Instruction::ExitAdd(parameter, variable) => {
            push_words(text, alloc, b"ExitAdd", &[*parameter, *variable])
        }
        Instruction::Exit => push_words(text, alloc, b"Exit", &[]),
    }
}

// Appends the line of an instruction.
fn push_line(
    text: &mut Bytes,
    alloc: Global,
    program: &Program,
    number: usize,
    instruction: &Instruction,
) -> Result<(), AllocError>
    ensures { OnOk result (text.new ≡ text.old ++ instruction_line program.now (number, instruction.now)) }
{
    text.extend_from_slice(b"  ")?;
    text.extend_from_slice(natural(alloc, number as u64)?.as_slice())?;
    push_instruction(text, alloc, program, instruction)?;
    text.extend_from_slice(b"\n")
}

fn push_lines(
    text: &mut Bytes,
    alloc: Global,
    program: &Program,
    code: &[Instruction],
) -> Result<(), AllocError>
    ensures { OnOk result (text.new ≡ text.old ++ flat_map (instruction_line program.now) (enumerate_from 0 code.now)) }
{
    for (number, instruction) in code.iter().enumerate() {
        push_line(text, alloc, program, number, instruction)?;
    }
    Ok(())
}

// Appends the lines of a unit.
fn push_unit(
    text: &mut Bytes,
    alloc: Global,
    program: &Program,
    name: &[u8],
    unit: &Unit,
) -> Result<(), AllocError>
    ensures { OnOk result (text.new ≡ text.old ++ unit_text program.now (name.now, unit.now)) }
{
    text.extend_from_slice(name)?;
    text.extend_from_slice(b":\n")?;
    push_lines(text, alloc, program, unit.code.as_slice())
}

fn push_units(
    text: &mut Bytes,
    alloc: Global,
    program: &Program,
    names: &[Bytes],
    units: &[Unit],
) -> Result<(), AllocError>
    ensures { OnOk result (text.new ≡ text.old ++ flat_map (unit_text program.now) (zip names.now units.now)) }
{
    for (name, unit) in names.iter().zip(units) {
        push_unit(text, alloc, program, name.as_slice(), unit)?;
    }
    Ok(())
}

// A word and a name.
fn named(alloc: Global, word: &[u8], name: &[u8]) -> Result<Bytes, AllocError>
    ensures { IfOk result (λ text. text ≡ word.now ++ name.now) }
{
    let mut text = Bytes::from_slice(alloc, word)?;
    text.extend_from_slice(name)?;
    Ok(text)
}

// Appends the names of the units of tasks.
fn push_tasks(names: &mut List<Bytes>, alloc: Global, tasks: &[Task]) -> Result<(), AllocError>
    ensures { OnOk result (names.new ≡ names.old ++ map task_name tasks.now) }
{
    for task in tasks {
        names.push(named(alloc, b"task ", task.name())?)?;
    }
    Ok(())
}

// Appends the name of a constructor's unit, if there is one.
fn push_maker(names: &mut List<Bytes>, alloc: Global, class: &Class) -> Result<(), AllocError>
    ensures { OnOk result (names.new ≡ names.old ++ maker_names class.now.name class.now.maker) }
{
    if class.maker().is_some() {
        names.push(named(alloc, b"maker ", class.name())?)?;
    }
    Ok(())
}

// The name of a method's unit.
fn method_name(alloc: Global, class: &[u8], method: &Method) -> Result<Bytes, AllocError>
    ensures { IfOk result (λ name. name ≡ method_name class.now method.now) }
{
    let mut name = named(alloc, b"method ", class)?;
    name.extend_from_slice(b".")?;
    name.extend_from_slice(method.name())?;
    Ok(name)
}

// Appends the names of the units of a class's methods.
fn push_methods(
    names: &mut List<Bytes>,
    alloc: Global,
    class: &[u8],
    methods: &[Method],
) -> Result<(), AllocError>
    ensures { OnOk result (names.new ≡ names.old ++ map (method_name class.now) methods.now) }
{
    for method in methods {
        names.push(method_name(alloc, class, method)?)?;
    }
    Ok(())
}

// Appends the names of the units of a class.
fn push_class(names: &mut List<Bytes>, alloc: Global, class: &Class) -> Result<(), AllocError>
    ensures { OnOk result (names.new ≡ names.old ++ class_names class.now) }
{
    push_maker(names, alloc, class)?;
    push_methods(names, alloc, class.name(), class.methods())
}

fn push_classes(names: &mut List<Bytes>, alloc: Global, classes: &[Class]) -> Result<(), AllocError>
    ensures { OnOk result (names.new ≡ names.old ++ flat_map class_names classes.now) }
{
    for class in classes {
        push_class(names, alloc, class)?;
    }
    Ok(())
}

// The names of the units, in order.
fn unit_names(alloc: Global, program: &Program) -> Result<List<Bytes>, AllocError>
    ensures { IfOk result (λ names. names ≡ unit_names program.now) }
{
    let mut names = List::new(alloc);
    push_tasks(&mut names, alloc, program.tasks())?;
    push_classes(&mut names, alloc, program.classes())?;
    Ok(names)
}

/// The listing of a program's code: for each unit its name on a line, and then a line for each of its instructions, with its
/// number, its name and its operands. An error is want of memory.
pub fn listing(alloc: Global, code: &Code, program: &Program) -> Result<Bytes, AllocError>
    ensures { IfOk result (λ text. text ≡ listing_text program.now code.now) }
{
    let names = unit_names(alloc, program)?;
    let mut text = Bytes::new(alloc);
    push_units(
        &mut text,
        alloc,
        program,
        names.as_slice(),
        code.units.as_slice(),
    )?;
    Ok(text)
}
