// Members, items and programs.

ghost use Rattle.std.specs.Prelude.{◌≡◌, ◌++◌, [], ◌∷◌, codes, IfOk, OnOk};
ghost use Rattle.bc_data.specs.SourceTree.{Empty, Nothing};
ghost use Rattle.bc_data.specs.View.{onto, onto_by, stat_views, view_method, view_member, view_param, view_text_item, view_tree};
ghost use Rattle.bc_print.specs.Canonical.{line, braced, deeper, each, formal_text, joined, param_text, signature_text, result_text, method_text, maker_text, member_text, item_text, statements_text, program_text};

use crate::parts::{Part, print_joined, print_name, print_named, print_type};
use crate::statement::{print_body, print_line};
use bc_data::list::Bytes;
use bc_data::tree::{
    ClassText, Formal, Item, Member, MethodText, Named, ParamText, StatText, TaskText, Tree,
    TypeText,
};
use std::alloc::{AllocError, Global};

// What the lines of members begin with: they stand behind one brace.
const MEMBER: &[u8] = b"  ";

fn print_result(out: &mut Bytes, kind: &Option<TypeText>) -> Result<(), AllocError>
    ensures { OnOk result (out.new ≡ out.old ++ result_text kind.now) }
{
    match kind {
        None => out.extend_from_slice(b"void"),
        Some(kind) => print_type(out, kind),
    }
}

fn print_signature(
    alloc: Global,
    out: &mut Bytes,
    x: &Named,
    formals: &[Formal],
) -> Result<(), AllocError>
    ensures { OnOk result (out.new ≡ out.old ++ signature_text x.now.name (onto formals.now Empty)) }
{
    print_named(out, b"", x, b"(")?;
    print_joined(alloc, out, b", ", formals)?;
    out.extend_from_slice(b")")
}

// The braces behind a head, with statements. Lines begin with the margin.
fn print_block(
    alloc: Global,
    out: &mut Bytes,
    margin: &[u8],
    body: &[StatText],
) -> Result<(), AllocError>
    ensures { OnOk result (out.new ≡ out.old
        ++ (codes " {" ++ 10 ∷ [] ++ statements_text (deeper margin.now) (stat_views body.now Nothing)
        ++ line margin.now (codes "}"))) }
{
    out.extend_from_slice(b" {\n")?;
    print_body(alloc, out, margin, body)?;
    print_line(out, margin, b"}")
}

fn print_maker(alloc: Global, out: &mut Bytes, m: &MethodText) -> Result<(), AllocError>
    ensures { OnOk result (out.new ≡ out.old ++ maker_text (codes "  ") (view_method m.now)) }
{
    out.extend_from_slice(MEMBER)?;
    print_signature(alloc, out, &m.name, m.formals.as_slice())?;
    print_block(alloc, out, MEMBER, m.body.as_slice())
}

fn print_method(alloc: Global, out: &mut Bytes, m: &MethodText) -> Result<(), AllocError>
    ensures { OnOk result (out.new ≡ out.old ++ method_text (codes "  ") (view_method m.now)) }
{
    out.extend_from_slice(MEMBER)?;
    print_result(out, &m.result)?;
    out.extend_from_slice(b" ")?;
    print_signature(alloc, out, &m.name, m.formals.as_slice())?;
    print_block(alloc, out, MEMBER, m.body.as_slice())
}

fn print_field(alloc: Global, out: &mut Bytes, x: &Formal) -> Result<(), AllocError>
    ensures { OnOk result (out.new ≡ out.old ++ line (codes "  ") (formal_text x.now ++ codes ";")) }
{
    out.extend_from_slice(MEMBER)?;
    x.print(alloc, out)?;
    out.extend_from_slice(b";\n")
}

fn print_member(alloc: Global, out: &mut Bytes, member: &Member) -> Result<(), AllocError>
    ensures { OnOk result (out.new ≡ out.old ++ member_text (codes "  ") (view_member member.now)) }
{
    match member {
        Member::Flag(x) => print_named(out, b"  flag ", x, b";\n"),
        Member::Field(x) => print_field(alloc, out, x),
        Member::Method(m) => print_method(alloc, out, m),
        Member::Maker(m) => print_maker(alloc, out, m),
    }
}

fn print_members(alloc: Global, out: &mut Bytes, members: &[Member]) -> Result<(), AllocError>
    ensures { OnOk result (out.new ≡ out.old
        ++ each (member_text (codes "  ")) (onto_by view_member members.now Empty)) }
{
    for member in members {
        print_member(alloc, out, member)?;
    }
    Ok(())
}

fn print_class(alloc: Global, out: &mut Bytes, class: &ClassText) -> Result<(), AllocError>
    ensures { OnOk result (out.new ≡ out.old
        ++ braced [] (codes "class " ++ class.now.name.name)
        (each (member_text (codes "  ")) (onto_by view_member class.now.members.items Empty))) }
{
    print_named(out, b"class ", &class.name, b" {\n")?;
    print_members(alloc, out, class.members.as_slice())?;
    out.extend_from_slice(b"}\n")
}

fn print_params(alloc: Global, out: &mut Bytes, params: &[ParamText]) -> Result<(), AllocError>
    ensures { OnOk result (out.new ≡ out.old ++ joined param_text (codes ", ") (onto_by view_param params.now Empty)) }
{
    print_joined(alloc, out, b", ", params)
}

fn print_task(alloc: Global, out: &mut Bytes, task: &TaskText) -> Result<(), AllocError>
    ensures { OnOk result (out.new ≡ out.old
        ++ braced [] (codes "task " ++ task.now.name.name ++ codes "("
        ++ joined param_text (codes ", ") (onto_by view_param task.now.params.items Empty) ++ codes ")")
        (statements_text (codes "  ") (stat_views task.now.body.items Nothing))) }
{
    print_named(out, b"task ", &task.name, b"(")?;
    print_params(alloc, out, task.params.as_slice())?;
    out.extend_from_slice(b")")?;
    print_block(alloc, out, b"", task.body.as_slice())
}

fn print_item(alloc: Global, out: &mut Bytes, item: &Item) -> Result<(), AllocError>
    ensures { OnOk result (out.new ≡ out.old ++ item_text (view_text_item item.now)) }
{
    match item {
        Item::TagType(x) => print_named(out, b"tagtype ", x, b";\n"),
        Item::Class(class) => print_class(alloc, out, class),
        Item::Task(task) => print_task(alloc, out, task),
    }
}

fn print_items(alloc: Global, out: &mut Bytes, items: &[Item]) -> Result<(), AllocError>
    ensures { OnOk result (out.new ≡ out.old ++ program_text (onto_by view_text_item items.now Empty)) }
{
    for item in items {
        print_item(alloc, out, item)?;
    }
    Ok(())
}

/// The canonical text of a tree: items, members and statements in order, each on lines of its own that begin with
/// two spaces for every open brace, and within a line single spaces at fixed places. An error is want of memory.
pub fn print_tree(alloc: Global, tree: &Tree) -> Result<Bytes, AllocError>
    ensures { IfOk result (λ text. text ≡ program_text (view_tree tree.now)) }
{
    let mut text = Bytes::new(alloc);
    print_items(alloc, &mut text, tree.items.as_slice())?;
    Ok(text)
}
