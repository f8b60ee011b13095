// What the classes of a program declare beside their names.

ghost use Rattle.std.specs.Prelude.{◌≡◌, IfOk, OnOk, option_map};
ghost use Rattle.bc_data.specs.SourceTree.{Empty};
ghost use Rattle.bc_data.specs.View.{onto, onto_by, view_member, view_method, view_text_item};
ghost use Rattle.bc_types_rules.specs.Context.{array_or_one, class_type, type_of};
ghost use Rattle.bc_types_rules.specs.Declared.{fold_all, no_types, signature_of, startup_types, type_of_result, types_of, types_of_formals, with_item, with_member};
ghost use Rattle.bc_types_rules.specs.Numbering.{number_of};
ghost use Rattle.bc_types_expr.specs.Looks.{all_types_seen, class_types_seen, signature_seen};
ghost use Rattle.bc_types_expr.specs.Types.{type_seen, types_seen};

use bc_data::list::Bytes;
use bc_data::program::Shape;
use bc_data::tree::{Base, Formal, Item, Member, MethodText, TypeText};
use bc_names::Names;
use bc_types_expr::{ClassTypes, Signature, ValueType};
use std::alloc::{AllocError, Global};

fn choose(many: bool, array: Shape, one: Shape) -> Shape
    ensures { result ≡ array_or_one many array one }
{
    if many { array } else { one }
}

/// The type of a class, or of an array of its objects.
fn type_of_class(
    alloc: Global,
    names: &Names,
    many: bool,
    name: &Bytes,
) -> Result<ValueType, AllocError>
    ensures { IfOk result (λ t. type_seen t ≡ class_type many name.now (number_of names.now.classes name.now)) }
{
    match names.class(name.as_slice()) {
        Some(class) => Ok(ValueType::Known(choose(
            many,
            Shape::Objects(class),
            Shape::Class(class),
        ))),
        None => Ok(ValueType::Undeclared(many, Bytes::from_slice(alloc, name.as_slice())?)),
    }
}

/// The type that a text names.
fn type_of(alloc: Global, names: &Names, kind: &TypeText) -> Result<ValueType, AllocError>
    ensures { IfOk result (λ t. type_seen t ≡ type_of (number_of names.now.classes) kind.now) }
{
    match &kind.base {
        Base::Int => Ok(ValueType::Known(choose(kind.many, Shape::Ints, Shape::Int))),
        Base::Bool => Ok(ValueType::Known(choose(kind.many, Shape::Bools, Shape::Bool))),
        Base::Class(name) => type_of_class(alloc, names, kind.many, name),
    }
}

fn types_of_formals(
    alloc: Global,
    names: &Names,
    formals: &[Formal],
) -> Result<Vec<ValueType>, AllocError>
    ensures { IfOk result (λ ts. types_seen ts.items ≡ types_of_formals (number_of names.now.classes) (onto formals.now Empty)) }
{
    let mut types = Vec::new(alloc);
    for formal in formals {
        let kind = type_of(alloc, names, &formal.kind)?;
        types.push(kind)?;
    }
    Ok(types)
}

fn type_of_result(
    alloc: Global,
    names: &Names,
    kind: &Option<TypeText>,
) -> Result<Option<ValueType>, AllocError>
    ensures { IfOk result (λ t. option_map type_seen t ≡ type_of_result (number_of names.now.classes) kind.now) }
{
    match kind {
        Some(kind) => Ok(Some(type_of(alloc, names, kind)?)),
        None => Ok(None),
    }
}

/// A method as its callers see it.
fn signature_of(alloc: Global, names: &Names, m: &MethodText) -> Result<Signature, AllocError>
    ensures { IfOk result (λ g. signature_seen g ≡ signature_of (number_of names.now.classes) (view_method m.now)) }
{
    let formals = types_of_formals(alloc, names, &m.formals)?;
    let result = type_of_result(alloc, names, &m.result)?;
    Ok(Signature { formals, result })
}

/// Adds what a member declares.
fn add_member(
    alloc: Global,
    names: &Names,
    types: &mut ClassTypes,
    member: &Member,
) -> Result<(), AllocError>
    ensures { OnOk result (class_types_seen types.new ≡ with_member (number_of names.now.classes) (class_types_seen types.old) (view_member member.now)) }
{
    match member {
        Member::Flag(_) => {}
        Member::Field(x) => {
            let kind = type_of(alloc, names, &x.kind)?;
            types.fields.push(kind)?;
        }
        Member::Method(m) => {
            let signature = signature_of(alloc, names, m)?;
            types.methods.push(signature)?;
        }
        Member::Maker(m) => types.maker = types_of_formals(alloc, names, &m.formals)?,
    }
    Ok(())
}

/// What a class with these members declares.
fn types_of_members(
    alloc: Global,
    names: &Names,
    members: &[Member],
) -> Result<ClassTypes, AllocError>
    ensures { IfOk result (λ t. class_types_seen t ≡ fold_all (with_member (number_of names.now.classes)) no_types (onto_by view_member members.now Empty)) }
{
    let mut types = ClassTypes {
        fields: Vec::new(alloc),
        methods: Vec::new(alloc),
        maker: Vec::new(alloc),
    };
    for member in members {
        add_member(alloc, names, &mut types, member)?;
    }
    Ok(types)
}

/// What the class that every program has declares.
fn startup_types(alloc: Global) -> Result<ClassTypes, AllocError>
    ensures { IfOk result (λ t. class_types_seen t ≡ startup_types) }
{
    let mut fields = Vec::new(alloc);
    fields.push(ValueType::Known(Shape::Ints))?;
    Ok(ClassTypes {
        fields,
        methods: Vec::new(alloc),
        maker: Vec::new(alloc),
    })
}

/// Adds what an item declares, if it is a class.
fn add_item(
    alloc: Global,
    names: &Names,
    types: &mut Vec<ClassTypes>,
    item: &Item,
) -> Result<(), AllocError>
    ensures { OnOk result (all_types_seen types.new.items ≡ with_item (number_of names.now.classes) (all_types_seen types.old.items) (view_text_item item.now)) }
{
    match item {
        Item::Class(class) => {
            let members = types_of_members(alloc, names, &class.members)?;
            types.push(members)?;
        }
        Item::TagType(_) | Item::Task(_) => {}
    }
    Ok(())
}

/// What each class declares, under its number. `StartupObject` comes first.
pub fn types_of(alloc: Global, names: &Names, items: &[Item]) -> Result<Vec<ClassTypes>, AllocError>
    ensures { IfOk result (λ ts. all_types_seen ts.items ≡ types_of (number_of names.now.classes) (onto_by view_text_item items.now Empty)) }
{
    let mut types = Vec::new(alloc);
    types.push(startup_types(alloc)?)?;
    for item in items {
        add_item(alloc, names, &mut types, item)?;
    }
    Ok(types)
}
