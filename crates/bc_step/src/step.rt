// One instruction.

ghost use Rattle.std.specs.Prelude.{◌≡◌, ◌<◌, Some, slice_get, IfOk, OnErr};
ghost use Rattle.bc_code.specs.Instructions.{place_or, rule, step};
ghost use Rattle.bc_step.specs.Area.{reads_of};
ghost use Rattle.bc_step.specs.State.{KeepsGiven, ObeysRule, StaysPut};
ghost use Rattle.bc_step.specs.Stepping.{CanStep};

use crate::area::Area;
use crate::control::settled;
use crate::exits::{exit_add, exit_clear, exit_flag};
use crate::objects::{
    add_tag, elem, field, length, new_array, new_object, new_tag, set_elem, set_field, set_flag,
};
use crate::printing::{print_bool, print_int, print_text};
use crate::state::{Did, State};
use crate::values::int_value;
use bc_code::code::{Code, Instruction, Unit};
use bc_data::program::Op;
use bc_data::run::{Place, Value};
use std::alloc::{AllocError, Global};

/// The place of the fault that the next instruction may meet.
#[inline]
fn place_at(unit: &Unit, next: usize) -> Place
    ensures { result ≡ place_or (slice_get unit.now.places next) }
{
    match unit.places.get(next) {
        None => Place { line: 0, column: 0 },
        Some(at) => *at,
    }
}

// Does an instruction. `None` is the answer where it has no rule.
#[tactic(auto, using(crate::proofs::Settling::stays))]
fn perform(
    alloc: Global,
    code: &Code,
    instruction: &Instruction,
    at: Place,
    state: &mut State,
    area: &mut Area,
) -> Result<Option<Did>, AllocError>
    requires { state.old.current.next < 18446744073709551615 }
    ensures ok { IfOk result (λ did. ObeysRule did state.old area.old state.new area.new
        (rule (reads_of area.old) code.now at instruction.now)) }
    ensures kept { KeepsGiven area.old area.new }
    ensures err { OnErr result (StaysPut state.old area.old state.new area.new) }
{
    let then = state.current.next + 1;
    match instruction {
        Instruction::Int(n) => Ok(settled(state.put(int_value(*n))?, area)),
        Instruction::Bool(b) => Ok(settled(state.put(Value::Bool(*b))?, area)),
        Instruction::Null => Ok(settled(state.put(Value::Null)?, area)),
        Instruction::Load(n) => Ok(settled(state.load(*n)?, area)),
        Instruction::Store(n) => Ok(settled(state.store(*n), area)),
        Instruction::Pop => Ok(settled(state.pop(), area)),
        Instruction::Neg => Ok(settled(state.neg(), area)),
        Instruction::Not => Ok(settled(state.not(), area)),
        Instruction::Add => Ok(settled(state.calculate(Op::Add, at), area)),
        Instruction::Sub => Ok(settled(state.calculate(Op::Sub, at), area)),
        Instruction::Mul => Ok(settled(state.calculate(Op::Mul, at), area)),
        Instruction::Div => Ok(settled(state.calculate(Op::Div, at), area)),
        Instruction::Rem => Ok(settled(state.calculate(Op::Rem, at), area)),
        Instruction::Less => Ok(settled(state.calculate(Op::Less, at), area)),
        Instruction::LessEq => Ok(settled(state.calculate(Op::LessEq, at), area)),
        Instruction::More => Ok(settled(state.calculate(Op::More, at), area)),
        Instruction::MoreEq => Ok(settled(state.calculate(Op::MoreEq, at), area)),
        Instruction::Same => Ok(settled(state.same(), area)),
        Instruction::Differ => Ok(settled(state.differ(), area)),
        Instruction::Jump(target) => Ok(settled(state.jump(*target), area)),
        Instruction::JumpIf(target) => Ok(settled(state.branch(*target as usize, then), area)),
        Instruction::JumpIfNot(target) => Ok(settled(state.branch(then, *target as usize), area)),
        Instruction::Turn => Ok(settled(state.turn(at), area)),
        Instruction::Field(n) => field(state, area, at, *n),
        Instruction::SetField(n) => set_field(alloc, state, area, at, *n),
        Instruction::Length => length(state, area, at),
        Instruction::Elem => elem(state, area, at),
        Instruction::SetElem => set_elem(alloc, state, area, at),
        Instruction::NewObject(class) => new_object(alloc, code, state, area, at, *class),
        Instruction::NewArray(kind) => new_array(alloc, state, area, at, *kind),
        Instruction::SetFlag(flag, on) => set_flag(alloc, state, area, at, *flag, *on),
        Instruction::AddTag(variable) => add_tag(alloc, state, area, at, *variable),
        Instruction::Make(class, count) => {
            Ok(settled(state.make(code, at, *class, *count)?, area))
        }
        Instruction::Call(class, method, count) => {
            let did = state.call(code, area, at, *class, *method, *count)?;
            Ok(settled(did, area))
        }
        Instruction::Return => Ok(settled(state.leave(), area)),
        Instruction::ReturnValue => Ok(settled(state.leave(), area)),
        Instruction::PrintText(bytes) => print_text(state, area, at, bytes.as_slice()),
        Instruction::PrintInt => print_int(alloc, state, area, at),
        Instruction::PrintBool => print_bool(state, area, at),
        Instruction::Assert => Ok(settled(state.assert_true(at), area)),
        Instruction::NewTag(variable, tag_type) => new_tag(state, area, at, *variable, *tag_type),
        Instruction::ExitFlag(p, flag, on) => exit_flag(alloc, state, area, at, *p, *flag, *on),
        Instruction::ExitClear(p, variable) => exit_clear(alloc, state, area, at, *p, *variable),
        Instruction::ExitAdd(p, variable) => exit_add(alloc, state, area, at, *p, *variable),
        Instruction::Exit => Ok(settled(Some(Did::Exit), area)),
    }
}

// The same of the instruction that stands at the state's place, if one does.
fn try_step(
    alloc: Global,
    code: &Code,
    state: &mut State,
    area: &mut Area,
) -> Result<Option<Did>, AllocError>
    ensures ok { IfOk result (λ did. ObeysRule did state.old area.old state.new area.new
        (step (reads_of area.old) code.now)) }
    ensures kept { KeepsGiven area.old area.new }
    ensures err { OnErr result (StaysPut state.old area.old state.new area.new) }
{
    let next = state.current.next;
    match code.units.get(state.current.unit as usize) {
        None => Ok(None),
        Some(unit) => {
            if next < unit.code.len() {
                let instruction = &unit.code[next];
                perform(alloc, code, instruction, place_at(unit, next), state, area)
            } else {
                Ok(None)
            }
        }
    }
}

/// One instruction of a run that generated code has brought here and that has no end yet. The answer is `Need`
/// exactly where it touches an object that the area hasn't; then nothing changed, and the instruction is to be done
/// again. After want of memory nothing changed.
pub fn step(
    alloc: Global,
    code: &Code,
    state: &mut State,
    area: &mut Area,
) -> Result<Did, AllocError>
    requires { CanStep code.now state.old area.old }
    ensures ok { IfOk result (λ did. ObeysRule (Some did) state.old area.old state.new area.new
        (step (reads_of area.old) code.now)) }
    ensures kept { KeepsGiven area.old area.new }
    ensures err { OnErr result (StaysPut state.old area.old state.new area.new) }
{
    match try_step(alloc, code, state, area)? {
        Some(did) => Ok(did),
        None => unreachable!(),
    }
}
