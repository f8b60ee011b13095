// Statements. `margin` is what each of their lines begins with.

ghost use Rattle.std.specs.Prelude.{◌≡◌, ◌++◌, codes, IfOk, OnOk};
ghost use Rattle.bc_data.specs.SourceTree.{Empty, Nothing};
ghost use Rattle.bc_data.specs.View.{view, onto_by, view_item, view_change, view_stat, stat_views};
ghost use Rattle.bc_print.specs.Canonical.{line, deeper, expression_text, formal_text, print_item_text, change_text, joined, statement_text, statements_text};

use crate::expression::{print_between, print_expression};
use crate::parts::{Part, print_joined, print_named};
use bc_data::list::Bytes;
use bc_data::tree::{ChangeText, ExprText, Formal, ItemText, Named, StatText};
use std::alloc::{AllocError, Global};

/// The margin behind one more brace.
pub fn deeper(alloc: Global, margin: &[u8]) -> Result<Bytes, AllocError>
    ensures { IfOk result (λ inner. inner ≡ deeper margin.now) }
{
    let mut inner = Bytes::from_slice(alloc, margin)?;
    inner.extend_from_slice(b"  ")?;
    Ok(inner)
}

/// Appends a line.
pub fn print_line(out: &mut Bytes, margin: &[u8], text: &[u8]) -> Result<(), AllocError>
    ensures { OnOk result (out.new ≡ out.old ++ line margin.now text.now) }
{
    out.extend_from_slice(margin)?;
    out.extend_from_slice(text)?;
    out.extend_from_slice(b"\n")
}

// A line with an expression between two texts.
fn print_value_line(
    alloc: Global,
    out: &mut Bytes,
    margin: &[u8],
    before: &[u8],
    e: &ExprText,
    behind: &[u8],
) -> Result<(), AllocError>
    ensures { OnOk result (out.new ≡ out.old
        ++ line margin.now (before.now ++ expression_text (view e.now) ++ behind.now)) }
{
    out.extend_from_slice(margin)?;
    print_between(alloc, out, before, e, behind)?;
    out.extend_from_slice(b"\n")
}

fn print_let(
    alloc: Global,
    out: &mut Bytes,
    margin: &[u8],
    x: &Formal,
    e: &ExprText,
) -> Result<(), AllocError>
    ensures { OnOk result (out.new ≡ out.old
        ++ line margin.now (formal_text x.now ++ codes " = " ++ expression_text (view e.now) ++ codes ";")) }
{
    out.extend_from_slice(margin)?;
    x.print(alloc, out)?;
    print_between(alloc, out, b" = ", e, b";\n")
}

fn print_tag(out: &mut Bytes, margin: &[u8], x: &Named, kind: &Named) -> Result<(), AllocError>
    ensures { OnOk result (out.new ≡ out.old
        ++ line margin.now (codes "tag " ++ x.now.name ++ codes " = new tag(" ++ kind.now.name ++ codes ");")) }
{
    out.extend_from_slice(margin)?;
    print_named(out, b"tag ", x, b" = new tag(")?;
    print_named(out, b"", kind, b");\n")
}

fn print_assign(
    alloc: Global,
    out: &mut Bytes,
    margin: &[u8],
    target: &ExprText,
    e: &ExprText,
) -> Result<(), AllocError>
    ensures { OnOk result (out.new ≡ out.old
        ++ line margin.now (expression_text (view target.now) ++ codes " = " ++ expression_text (view e.now)
        ++ codes ";")) }
{
    out.extend_from_slice(margin)?;
    print_expression(alloc, out, target)?;
    print_between(alloc, out, b" = ", e, b";\n")
}

fn print_items(
    alloc: Global,
    out: &mut Bytes,
    margin: &[u8],
    items: &[ItemText],
) -> Result<(), AllocError>
    ensures { OnOk result (out.new ≡ out.old
        ++ line margin.now (codes "print(" ++ joined print_item_text (codes ", ") (onto_by view_item items.now Empty)
        ++ codes ");")) }
{
    out.extend_from_slice(margin)?;
    out.extend_from_slice(b"print(")?;
    print_joined(alloc, out, b", ", items)?;
    out.extend_from_slice(b");\n")
}

fn print_exit(
    alloc: Global,
    out: &mut Bytes,
    margin: &[u8],
    changes: &[ChangeText],
) -> Result<(), AllocError>
    ensures { OnOk result (out.new ≡ out.old
        ++ line margin.now (codes "taskexit("
        ++ joined change_text (codes "; ") (onto_by view_change changes.now Empty) ++ codes ");")) }
{
    out.extend_from_slice(margin)?;
    out.extend_from_slice(b"taskexit(")?;
    print_joined(alloc, out, b"; ", changes)?;
    out.extend_from_slice(b");\n")
}

/// Appends a statement.
#[cycle(statement)]
pub fn print_statement(
    alloc: Global,
    out: &mut Bytes,
    margin: &[u8],
    statement: &StatText,
) -> Result<(), AllocError>
    ensures { OnOk result (out.new ≡ out.old ++ statement_text margin.now (view_stat statement.now)) }
{
    match statement {
        StatText::Let(x, e) => print_let(alloc, out, margin, x, e),
        StatText::Tag(_, x, kind) => print_tag(out, margin, x, kind),
        StatText::Assign(target, e) => print_assign(alloc, out, margin, target, e),
        StatText::Call(e) => print_value_line(alloc, out, margin, b"", e, b";"),
        StatText::Make(e) => print_value_line(alloc, out, margin, b"", e, b";"),
        StatText::Block(_, body) => {
            print_line(out, margin, b"{")?;
            print_body(alloc, out, margin, body.as_slice())?;
            print_line(out, margin, b"}")
        }
        StatText::If(_, test, body, other) => {
            print_value_line(alloc, out, margin, b"if (", test, b") {")?;
            print_body(alloc, out, margin, body.as_slice())?;
            match other {
                None => print_line(out, margin, b"}"),
                Some(other) => {
                    print_line(out, margin, b"} else {")?;
                    print_body(alloc, out, margin, other.as_slice())?;
                    print_line(out, margin, b"}")
                }
            }
        }
        StatText::While(_, test, body) => {
            print_value_line(alloc, out, margin, b"while (", test, b") {")?;
            print_body(alloc, out, margin, body.as_slice())?;
            print_line(out, margin, b"}")
        }
        StatText::Return(_, None) => print_line(out, margin, b"return;"),
        StatText::Return(_, Some(e)) => {
            print_value_line(alloc, out, margin, b"return ", e, b";")
        }
        StatText::Print(_, items) => print_items(alloc, out, margin, items.as_slice()),
        StatText::Assert(_, e) => print_value_line(alloc, out, margin, b"assert(", e, b");"),
        StatText::Exit(_, changes) => print_exit(alloc, out, margin, changes.as_slice()),
    }
}

// The statements behind one more brace.
#[cycle(statement)]
pub fn print_body(
    alloc: Global,
    out: &mut Bytes,
    margin: &[u8],
    body: &[StatText],
) -> Result<(), AllocError>
    ensures { OnOk result (out.new ≡ out.old ++ statements_text (deeper margin.now) (stat_views body.now Nothing)) }
{
    let inner = deeper(alloc, margin)?;
    for statement in body {
        print_statement(alloc, out, inner.as_slice(), statement)?;
    }
    Ok(())
}
