// The trees of program texts.

use crate::list::Bytes;
use crate::program::Op;
use crate::run::Place;

/// A program's tree: its items in the order of the text.
#[derive(Debug, Drop)]
pub struct Tree {
    pub items: Vec<Item>,
}

/// A declaration of a tag type, a class or a task.
#[derive(Debug, Drop)]
pub enum Item {
    TagType(Named),
    Class(ClassText),
    Task(TaskText),
}

/// A name and its place.
#[derive(Debug, Drop)]
pub struct Named {
    pub name: Bytes,
    pub at: Place,
}

/// A class and its members in the order of the text.
#[derive(Debug, Drop)]
pub struct ClassText {
    pub name: Named,
    pub members: Vec<Member>,
}

/// A member of a class. A `Maker` is a constructor.
#[derive(Debug, Drop)]
pub enum Member {
    Flag(Named),
    Field(Formal),
    Method(MethodText),
    Maker(MethodText),
}

/// A method or a constructor. A constructor, and a method that is `void`, has no result.
#[derive(Debug, Drop)]
pub struct MethodText {
    pub result: Option<TypeText>,
    pub name: Named,
    pub formals: Vec<Formal>,
    pub body: Vec<StatText>,
}

/// A name with its type, as in a field, a parameter or a local variable.
#[derive(Debug, Drop)]
pub struct Formal {
    pub kind: TypeText,
    pub name: Named,
}

/// A type: what it is, whether it is an array of that, and its place.
#[derive(Debug, Drop)]
pub struct TypeText {
    pub base: Base,
    pub many: bool,
    pub at: Place,
}

/// What a type is, or what its elements are.
#[derive(Debug, Drop)]
pub enum Base {
    Int,
    Bool,
    Class(Bytes),
}

/// A task. The place is that of `task`.
#[derive(Debug, Drop)]
pub struct TaskText {
    pub at: Place,
    pub name: Named,
    pub params: Vec<ParamText>,
    pub body: Vec<StatText>,
}

/// A parameter of a task: its class, its name, its guard and the tag variables that it binds.
#[derive(Debug, Drop)]
pub struct ParamText {
    pub class: Named,
    pub name: Named,
    pub guard: FlagText,
    pub binds: Vec<Bind>,
}

/// A tag variable and its type.
#[derive(Debug, Drop)]
pub struct Bind {
    pub tag_type: Named,
    pub variable: Named,
}

/// A guard over flags.
#[derive(Debug, Drop)]
pub enum FlagText {
    Flag(Named),
    Truth(bool),
    Not(Box<FlagText>),
    And(Box<FlagText>, Box<FlagText>),
    Or(Box<FlagText>, Box<FlagText>),
    Group(Box<FlagText>),
}

/// A statement. The place is that of its keyword or its `{`. `Tag` has the variable and then the type.
#[derive(Debug, Drop)]
pub enum StatText {
    Let(Formal, ExprText),
    Tag(Place, Named, Named),
    Assign(ExprText, ExprText),
    Call(ExprText),
    Make(ExprText),
    Block(Place, Vec<StatText>),
    If(Place, ExprText, Vec<StatText>, Option<Vec<StatText>>),
    While(Place, ExprText, Vec<StatText>),
    Return(Place, Option<ExprText>),
    Print(Place, Vec<ItemText>),
    Assert(Place, ExprText),
    Exit(Place, Vec<ChangeText>),
}

/// An item of a `print`: the bytes that a text means, with its escapes replaced, or an expression.
#[derive(Debug, Drop)]
pub enum ItemText {
    Text(Bytes),
    Value(ExprText),
}

/// What a `taskexit` does to a parameter.
#[derive(Debug, Drop)]
pub struct ChangeText {
    pub param: Named,
    pub actions: Vec<ActionText>,
}

/// An action of a `taskexit`, or in the braces of a `new`. The places are those of `add` and `clear`.
#[derive(Debug, Drop)]
pub enum ActionText {
    Flag(Named, bool),
    Add(Place, Named),
    Clear(Place, Named),
}

/// An expression. The place is that of its token, its operator, its `.` or `[`, its `new` or its `(`.
#[derive(Debug, Drop)]
pub enum ExprText {
    Int(Place, i32),
    Truth(Place, bool),
    Null(Place),
    This(Place),
    Name(Named),
    Group(Place, Box<ExprText>),
    Neg(Place, Box<ExprText>),
    Not(Place, Box<ExprText>),
    Two(Place, Op, Box<ExprText>, Box<ExprText>),
    Field(Place, Box<ExprText>, Named),
    Length(Place, Box<ExprText>),
    Elem(Place, Box<ExprText>, Box<ExprText>),
    Call(Place, Box<ExprText>, Named, Vec<ExprText>),
    Make(Place, Named, Vec<ExprText>, Vec<ActionText>),
    Array(Place, TypeText, Box<ExprText>),
}
