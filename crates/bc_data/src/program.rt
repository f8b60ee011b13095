// Accepted programs.

ghost use Rattle.std.specs.Prelude.{◌≡◌, option_copied};
ghost use Rattle.bc_data.specs.WellTyped.{IsWellTyped};

use crate::list::Bytes;
use crate::run::{Kind, Place};
use std::marker::Model;

/// A program: its classes (the first is `StartupObject`), tag types and tasks, in the order of declaration. Its type keeps
/// the facts of `IsWellTyped`, among them what running and compiling it need: each number of a class, a member, a slot, a
/// tag type or a tag variable is one that there is, every expression has the shape that its place asks for, and a slot or
/// a tag variable is read only where it has been set. What is accepted keeps them (`bc_law_accepted`); they say nothing of
/// the levels of a text's trees.
#[derive(Drop)]
pub struct Program {
    classes: Vec<Class>,
    tag_types: Vec<Bytes>,
    tasks: Vec<Task>,
}

#[derive(Drop)]
pub struct Class {
    name: Bytes,
    flags: Vec<Bytes>,
    fields: Vec<Field>,
    maker: Option<Method>,
    methods: Vec<Method>,
}

#[derive(Drop)]
pub struct Field {
    pub name: Bytes,
    pub shape: Shape,
}

/// The static type of a value.
#[derive(Clone, Copy, Debug, PartialEq, Eq)]
pub enum Shape {
    Int,
    Bool,
    Null,
    Class(u32),
    Ints,
    Bools,
    Objects(u32),
}

/// A method or a constructor. `locals` counts the slots, those of `this` and the parameters among them.
#[derive(Drop)]
pub struct Method {
    name: Bytes,
    formals: Vec<Shape>,
    locals: u32,
    result: Option<Shape>,
    body: Vec<Stat>,
}

/// A task. `variables` has the types of the tag variables that its parameters bind; `locals` counts the slots
/// and `tags` the tag variables, those that its parameters bind among them.
#[derive(Drop)]
pub struct Task {
    name: Bytes,
    at: Place,
    params: Vec<Param>,
    variables: Vec<u32>,
    locals: u32,
    tags: u32,
    body: Vec<Stat>,
}

/// A parameter of a task: its class, its guard, and the tag variables that it binds.
#[derive(Drop)]
pub struct Param {
    class: u32,
    guard: FlagExpr,
    binds: Vec<u32>,
}

#[derive(Drop)]
pub enum FlagExpr {
    Flag(u32),
    Truth(bool),
    Not(Box<FlagExpr>),
    And(Box<FlagExpr>, Box<FlagExpr>),
    Or(Box<FlagExpr>, Box<FlagExpr>),
}

#[derive(Clone, Copy, Debug, PartialEq, Eq)]
pub enum Op {
    Or,
    And,
    Same,
    Differ,
    Less,
    LessEq,
    More,
    MoreEq,
    Add,
    Sub,
    Mul,
    Div,
    Rem,
}

/// A statement. `NewTag` has the variable and then the type; `Drop` is a call with a result or a `new`, and
/// `Perform` a call without one.
#[derive(Drop)]
pub enum Stat {
    Set(u32, Expr),
    NewTag(Place, u32, u32),
    SetField(Place, Expr, u32, Expr),
    SetElem(Place, Expr, Expr, Expr),
    Drop(Expr),
    Perform(Expr),
    If(Expr, Vec<Stat>, Vec<Stat>),
    While(Place, Expr, Vec<Stat>),
    Return(Option<Expr>),
    Print(Place, Vec<Part>),
    Assert(Place, Expr),
    Exit(Vec<Change>),
    Block(Vec<Stat>),
}

/// An item of a `print`.
#[derive(Drop)]
pub enum Part {
    Text(Bytes),
    Number(Expr),
    Truth(Expr),
}

/// An action of a `taskexit`. The first number is the parameter's.
#[derive(Clone, Copy, Debug, PartialEq, Eq)]
pub enum Change {
    Flag(u32, u32, bool),
    Add(Place, u32, u32),
    Clear(u32, u32),
}

/// An expression. `Call` has the class and then the method.
#[derive(Drop)]
pub enum Expr {
    Int(i32),
    Truth(bool),
    Null,
    Local(u32),
    Neg(Box<Expr>),
    Not(Box<Expr>),
    Two(Place, Op, Box<Expr>, Box<Expr>),
    Field(Place, Box<Expr>, u32),
    Length(Place, Box<Expr>),
    Elem(Place, Box<Expr>, Box<Expr>),
    Call(Place, Box<Expr>, u32, u32, Vec<Expr>),
    Make(Place, u32, Vec<Expr>, Vec<Tweak>),
    Array(Place, Kind, Box<Expr>),
}

/// An action in the braces of a `new`.
#[derive(Clone, Copy, Debug, PartialEq, Eq)]
pub enum Tweak {
    Flag(u32, bool),
    Add(Place, u32),
}

impl Model for Method {
    ghost use Rattle.std.specs.Coded.{codes};
    ghost use Rattle.bc_data.specs.Typed.{TypedMethod, Nothing};
    ghost use Rattle.bc_data.specs.TypedCode.{statements_code};
    ghost use Rattle.bc_data.specs.ProgramView.{program_stat_views};

    ghost Value = { TypedMethod };

    ghost coded = { Prim.hlevel (codes, statements_code) };

    ghost view = { λ m. record {
      name = m.name;
      formals = m.formals.items;
      locals = m.locals;
      result = m.result;
      body = program_stat_views m.body.items Nothing;
    } };
}

impl Model for Class {
    ghost use Rattle.std.specs.Coded.{codes};
    ghost use Rattle.bc_data.specs.Typed.{TypedClass};
    ghost use Rattle.bc_data.specs.TypedCode.{statements_code};

    ghost Value = { TypedClass };

    ghost coded = { Prim.hlevel (codes, statements_code) };

    ghost view = { λ c. record {
      name = c.name;
      flags = c.flags.items;
      fields = c.fields.items;
      maker = c.maker;
      methods = c.methods.items;
    } };
}

impl Model for Param {
    ghost use Rattle.std.specs.Coded.{codes};
    ghost use Rattle.bc_data.specs.Typed.{TypedParam};
    ghost use Rattle.bc_data.specs.TypedCode.{guard_code};
    ghost use Rattle.bc_data.specs.ProgramView.{view_flag_expr};

    ghost Value = { TypedParam };

    ghost coded = { Prim.hlevel (codes, guard_code) };

    ghost view = { λ p. record { class = p.class; guard = view_flag_expr p.guard; binds = p.binds.items } };
}

impl Model for Task {
    ghost use Rattle.std.specs.Coded.{codes};
    ghost use Rattle.bc_data.specs.Typed.{TypedTask, Nothing};
    ghost use Rattle.bc_data.specs.TypedCode.{statements_code, guard_code};
    ghost use Rattle.bc_data.specs.ProgramView.{program_stat_views};

    ghost Value = { TypedTask };

    ghost coded = { Prim.hlevel (codes, statements_code, guard_code) };

    ghost view = { λ t. record {
      name = t.name;
      at = t.at;
      params = t.params.items;
      variables = t.variables.items;
      locals = t.locals;
      tags = t.tags;
      body = program_stat_views t.body.items Nothing;
    } };
}

impl Method {
    ghost use Rattle.bc_data.specs.Typed.{Nothing};
    ghost use Rattle.bc_data.specs.ProgramView.{program_stat_views};

    /// The method or constructor of these parts. `locals` counts the slots, those of `this` and the formals among them.
    pub fn new(
        name: Bytes,
        formals: Vec<Shape>,
        locals: u32,
        returns: Option<Shape>,
        body: Vec<Stat>,
    ) -> Self
        ensures { result ≡ record {
          name = name;
          formals = formals.items;
          locals = locals;
          result = returns;
          body = program_stat_views body.items Nothing;
        } }
    {
        Method {
            name,
            formals,
            locals,
            result: returns,
            body,
        }
    }

    /// Its name.
    pub fn name(&self) -> &[u8]
        ensures { result.now ≡ self.now.name }
    {
        self.name.as_slice()
    }

    /// The shapes of its formals.
    pub fn formals(&self) -> &[Shape]
        ensures { result.now ≡ self.now.formals }
    {
        self.formals.as_slice()
    }

    /// The number of its slots, those of `this` and the formals among them.
    pub fn locals(&self) -> u32
        ensures { result ≡ self.now.locals }
    {
        self.locals
    }

    /// The shape of its result, if it has one.
    pub fn result(&self) -> Option<Shape>
        ensures { result ≡ self.now.result }
    {
        self.result
    }

    /// Its statements.
    pub fn body(&self) -> &[Stat]
        ensures { program_stat_views result.now Nothing ≡ self.now.body }
    {
        self.body.as_slice()
    }
}

impl Class {
    /// The class of these parts.
    pub fn new(
        name: Bytes,
        flags: Vec<Bytes>,
        fields: Vec<Field>,
        maker: Option<Method>,
        methods: Vec<Method>,
    ) -> Self
        ensures { result ≡ record {
          name = name;
          flags = flags.items;
          fields = fields.items;
          maker = maker;
          methods = methods.items;
        } }
    {
        Class {
            name,
            flags,
            fields,
            maker,
            methods,
        }
    }

    /// Its name.
    pub fn name(&self) -> &[u8]
        ensures { result.now ≡ self.now.name }
    {
        self.name.as_slice()
    }

    /// The names of its flags, by number.
    pub fn flags(&self) -> &[Bytes]
        ensures { result.now ≡ self.now.flags }
    {
        self.flags.as_slice()
    }

    /// Its fields, by number.
    pub fn fields(&self) -> &[Field]
        ensures { result.now ≡ self.now.fields }
    {
        self.fields.as_slice()
    }

    /// Its constructor, if it has one.
    pub fn maker(&self) -> Option<&Method>
        ensures { option_copied result ≡ self.now.maker }
    {
        self.maker.as_ref()
    }

    /// Its methods, by number.
    pub fn methods(&self) -> &[Method]
        ensures { result.now ≡ self.now.methods }
    {
        self.methods.as_slice()
    }
}

impl Param {
    ghost use Rattle.bc_data.specs.ProgramView.{view_flag_expr};

    /// A parameter of this class, with this guard, which binds these tag variables.
    pub fn new(class: u32, guard: FlagExpr, binds: Vec<u32>) -> Self
        ensures { result ≡ record { class = class; guard = view_flag_expr guard; binds = binds.items } }
    {
        Param {
            class,
            guard,
            binds,
        }
    }

    /// The number of its class.
    pub fn class(&self) -> u32
        ensures { result ≡ self.now.class }
    {
        self.class
    }

    /// Its guard.
    pub fn guard(&self) -> &FlagExpr
        ensures { view_flag_expr result.now ≡ self.now.guard }
    {
        &self.guard
    }

    /// The tag variables that it binds.
    pub fn binds(&self) -> &[u32]
        ensures { result.now ≡ self.now.binds }
    {
        self.binds.as_slice()
    }
}

impl Task {
    ghost use Rattle.bc_data.specs.Typed.{Nothing};
    ghost use Rattle.bc_data.specs.ProgramView.{program_stat_views};

    /// The task of these parts. `variables` has the types of the tag variables that its parameters bind; `locals` counts the
    /// slots, and `tags` the tag variables, those that the parameters bind among them.
    pub fn new(
        name: Bytes,
        at: Place,
        params: Vec<Param>,
        variables: Vec<u32>,
        locals: u32,
        tags: u32,
        body: Vec<Stat>,
    ) -> Self
        ensures { result ≡ record {
          name = name;
          at = at;
          params = params.items;
          variables = variables.items;
          locals = locals;
          tags = tags;
          body = program_stat_views body.items Nothing;
        } }
    {
        Task {
            name,
            at,
            params,
            variables,
            locals,
            tags,
            body,
        }
    }

    /// Its name.
    pub fn name(&self) -> &[u8]
        ensures { result.now ≡ self.now.name }
    {
        self.name.as_slice()
    }

    /// Where it begins in the text.
    pub fn at(&self) -> Place
        ensures { result ≡ self.now.at }
    {
        self.at
    }

    /// Its parameters.
    pub fn params(&self) -> &[Param]
        ensures { result.now ≡ self.now.params }
    {
        self.params.as_slice()
    }

    /// The types of the tag variables that its parameters bind.
    pub fn variables(&self) -> &[u32]
        ensures { result.now ≡ self.now.variables }
    {
        self.variables.as_slice()
    }

    /// The number of its slots, those of the parameters among them.
    pub fn locals(&self) -> u32
        ensures { result ≡ self.now.locals }
    {
        self.locals
    }

    /// The number of its tag variables, those that its parameters bind among them.
    pub fn tags(&self) -> u32
        ensures { result ≡ self.now.tags }
    {
        self.tags
    }

    /// Its statements.
    pub fn body(&self) -> &[Stat]
        ensures { program_stat_views result.now Nothing ≡ self.now.body }
    {
        self.body.as_slice()
    }
}

impl Model for Program {
    ghost use Rattle.std.specs.Coded.{codes};
    ghost use Rattle.bc_data.specs.Typed.{TypedProgram};
    ghost use Rattle.bc_data.specs.TypedCode.{statements_code, guard_code};
    ghost use Rattle.bc_data.specs.WellTyped.{IsWellTyped};

    ghost Value = { TypedProgram };

    ghost invariant = { λ p. IsWellTyped (record { classes = p.classes.items; tag_types = p.tag_types.items; tasks = p.tasks.items }) };

    ghost coded = { Prim.hlevel (codes, statements_code, guard_code) };

    ghost view = { λ p. record { classes = p.classes.items; tag_types = p.tag_types.items; tasks = p.tasks.items } };
}

impl Program {
    /// The program with these classes, tag types and tasks.
    pub fn new(classes: Vec<Class>, tag_types: Vec<Bytes>, tasks: Vec<Task>) -> Self
        requires { IsWellTyped (record { classes = classes.items; tag_types = tag_types.items; tasks = tasks.items }) }
        ensures { result ≡ record { classes = classes.items; tag_types = tag_types.items; tasks = tasks.items } }
    {
        Program {
            classes,
            tag_types,
            tasks,
        }
    }

    /// What every program keeps.
    pub fn is_well_typed(&self)
        ensures { IsWellTyped self.now }
    {
        let _ = &self.classes;
    }

    /// The classes. The first is `StartupObject`.
    pub fn classes(&self) -> &[Class]
        ensures { result.now ≡ self.now.classes }
    {
        self.classes.as_slice()
    }

    /// The names of the tag types.
    pub fn tag_types(&self) -> &[Bytes]
        ensures { result.now ≡ self.now.tag_types }
    {
        self.tag_types.as_slice()
    }

    /// The tasks.
    pub fn tasks(&self) -> &[Task]
        ensures { result.now ≡ self.now.tasks }
    {
        self.tasks.as_slice()
    }
}
