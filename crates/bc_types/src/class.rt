// Classes.

ghost use Rattle.std.specs.Prelude.{◌≡◌, IfOk};
ghost use Rattle.bc_data.specs.SourceTree.{Empty};
ghost use Rattle.bc_data.specs.View.{onto_by, view_member};
ghost use Rattle.bc_data.specs.Startup.{startup_class};
ghost use Rattle.bc_types_rules.specs.Numbering.{try_fold};
ghost use Rattle.bc_types_rules.specs.Walk.{check_member, empty_class};
ghost use Rattle.bc_names.specs.Answers.{Answers};
ghost use Rattle.bc_types_expr.specs.Looks.{looks};

use bc_data::list::Bytes;
use bc_data::program::{Class, Field, Method, Shape};
use bc_data::tree::{ClassText, Member};
use bc_names::TypeFault;
use bc_types_expr::{Table, shape_of};
use bc_types_stat::{maker, method};
use std::alloc::{AllocError, Global};
use std::marker::Model;

/// The parts of a class as far as it is checked. Contracts see the class.
#[derive(Drop)]
struct ClassParts {
    name: Bytes,
    flags: Vec<Bytes>,
    fields: Vec<Field>,
    maker: Option<Method>,
    methods: Vec<Method>,
}

impl Model for ClassParts {
    ghost use Rattle.std.specs.Coded.{codes};
    ghost use Rattle.bc_data.specs.Typed.{TypedClass};
    ghost use Rattle.bc_data.specs.TypedCode.{statements_code};

    ghost Value = { TypedClass };

    ghost coded = { Prim.hlevel (codes, statements_code) };

    ghost view = { λ c. record { name = c.name; flags = c.flags.items; fields = c.fields.items; maker = c.maker; methods = c.methods.items } };
}

fn empty_class(alloc: Global, name: &[u8]) -> Result<ClassParts, AllocError>
    ensures { IfOk result (λ c. c ≡ empty_class name.now) }
{
    Ok(ClassParts {
        name: Bytes::from_slice(alloc, name)?,
        flags: Vec::new(alloc),
        fields: Vec::new(alloc),
        maker: None,
        methods: Vec::new(alloc),
    })
}

/// The class that every program has.
pub fn startup_class(alloc: Global) -> Result<Class, AllocError>
    ensures { IfOk result (λ c. c ≡ startup_class) }
{
    let mut flags = Vec::new(alloc);
    flags.push(Bytes::from_slice(alloc, b"initialstate")?)?;
    let mut fields = Vec::new(alloc);
    fields.push(Field {
        name: Bytes::from_slice(alloc, b"input")?,
        shape: Shape::Ints,
    })?;
    let name = Bytes::from_slice(alloc, b"StartupObject")?;
    Ok(Class::new(name, flags, fields, None, Vec::new(alloc)))
}

/// Adds a member to the class with this number.
fn add_member(
    alloc: Global,
    table: &Table,
    me: u32,
    class: &mut ClassParts,
    member: &Member,
) -> Result<(), TypeFault>
    ensures { Answers result (λ _. class.new) (check_member (looks table.now) me class.old (view_member member.now)) }
{
    match member {
        Member::Flag(x) => {
            let name = Bytes::from_slice(alloc, x.name.as_slice())?;
            class.flags.push(name)?;
        }
        Member::Field(x) => {
            let shape = shape_of(table, &x.kind)?;
            let name = Bytes::from_slice(alloc, x.name.name.as_slice())?;
            class.fields.push(Field { name, shape })?;
        }
        Member::Method(m) => {
            let checked = method(alloc, table, me, m)?;
            class.methods.push(checked)?;
        }
        Member::Maker(m) => {
            let checked = maker(alloc, table, me, class.name.as_slice(), m)?;
            class.maker = Some(checked);
        }
    }
    Ok(())
}

/// The class with this number, this name and these members, which are checked in the order of the text.
fn class_of(
    alloc: Global,
    table: &Table,
    me: u32,
    name: &[u8],
    members: &[Member],
) -> Result<Class, TypeFault>
    ensures { Answers result (λ c. c) (try_fold (check_member (looks table.now) me) (empty_class name.now) (onto_by view_member members.now Empty)) }
{
    let mut class = empty_class(alloc, name)?;
    for member in members {
        add_member(alloc, table, me, &mut class, member)?;
    }
    let ClassParts {
        name,
        flags,
        fields,
        maker,
        methods,
    } = class;
    Ok(Class::new(name, flags, fields, maker, methods))
}

/// The class with this number, or the first fault of its members.
pub fn check_class(
    alloc: Global,
    table: &Table,
    me: u32,
    class: &ClassText,
) -> Result<Class, TypeFault>
    ensures { Answers result (λ c. c) (try_fold (check_member (looks table.now) me) (empty_class class.now.name.name) (onto_by view_member class.now.members.items Empty)) }
{
    class_of(alloc, table, me, class.name.name.as_slice(), &class.members)
}
