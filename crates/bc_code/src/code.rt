// The instructions, and the code of a program.

use bc_data::list::{Bytes, List};
use bc_data::run::{Kind, Place, Value};

/// An instruction. `Jump`, `JumpIf` and `JumpIfNot` have the number of the instruction to which they go. `NewTag` has the
/// variable and then the type, `Make` the class and then the number of arguments, and `Call` the class, the method and the
/// number of arguments. The first number of `ExitFlag`, `ExitClear` and `ExitAdd` is the parameter's.
#[derive(Debug, Drop)]
pub enum Instruction {
    Int(i32),
    Bool(bool),
    Null,
    Load(u32),
    Store(u32),
    Pop,
    Neg,
    Not,
    Add,
    Sub,
    Mul,
    Div,
    Rem,
    Less,
    LessEq,
    More,
    MoreEq,
    Same,
    Differ,
    Jump(u32),
    JumpIf(u32),
    JumpIfNot(u32),
    Turn,
    Field(u32),
    SetField(u32),
    Length,
    Elem,
    SetElem,
    NewObject(u32),
    NewArray(Kind),
    SetFlag(u32, bool),
    AddTag(u32),
    Make(u32, u32),
    Call(u32, u32, u32),
    Return,
    ReturnValue,
    PrintText(Bytes),
    PrintInt,
    PrintBool,
    Assert,
    NewTag(u32, u32),
    ExitFlag(u32, u32, bool),
    ExitClear(u32, u32),
    ExitAdd(u32, u32),
    Exit,
}

/// The code of a task, a constructor or a method: its instructions, beside each a place, which is that of its fault where it
/// may meet one, and its numbers of slots and of tag variables.
#[derive(Debug, Drop)]
pub struct Unit {
    pub code: List<Instruction>,
    pub places: List<Place>,
    pub locals: u32,
    pub tags: u32,
}

/// What the code needs of a class: the cells of a new object, the unit of its constructor, if it has one, and the unit of its
/// first method.
#[derive(Debug, Drop)]
pub struct ClassCode {
    pub cells: List<Value>,
    pub maker: Option<u32>,
    pub methods: u32,
}

/// The code of a program: the units of its tasks, in order, and then for each class that of its constructor and those of its
/// methods.
#[derive(Debug, Drop)]
pub struct Code {
    pub units: List<Unit>,
    pub classes: List<ClassCode>,
}
