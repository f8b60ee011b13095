// Expressions, items of a `print` and changes of a `taskexit`.

ghost use Rattle.std.specs.Prelude.{◌≡◌, ◌++◌, codes, OnOk};
ghost use Rattle.bc_data.specs.SourceTree.{NoArg};
ghost use Rattle.bc_data.specs.View.{view, views, view_item, view_change};
ghost use Rattle.bc_print.specs.Canonical.{expression_text, arguments_text, print_item_text, change_text};

use crate::parts::{
    Part, print_base, print_joined, print_literal, print_name, print_number, print_operator,
    print_separator, print_truth, print_tweaks,
};
use bc_data::list::Bytes;
use bc_data::tree::{ChangeText, ExprText, ItemText, Named};
use std::alloc::{AllocError, Global};

/// Appends an expression.
#[cycle(expression)]
pub fn print_expression(alloc: Global, out: &mut Bytes, e: &ExprText) -> Result<(), AllocError>
    ensures { OnOk result (out.new ≡ out.old ++ expression_text (view e.now)) }
{
    match e {
        ExprText::Int(_, n) => print_number(alloc, out, *n),
        ExprText::Truth(_, b) => print_truth(out, *b),
        ExprText::Null(_) => out.extend_from_slice(b"null"),
        ExprText::This(_) => out.extend_from_slice(b"this"),
        ExprText::Name(x) => print_name(out, x),
        ExprText::Group(_, inner) => print_between(alloc, out, b"(", inner, b")"),
        ExprText::Neg(_, inner) => print_between(alloc, out, b"-", inner, b""),
        ExprText::Not(_, inner) => print_between(alloc, out, b"!", inner, b""),
        ExprText::Two(_, op, left, right) => {
            print_expression(alloc, out, left)?;
            print_operator(out, *op)?;
            print_expression(alloc, out, right)
        }
        ExprText::Field(_, object, x) => {
            print_between(alloc, out, b"", object, b".")?;
            print_name(out, x)
        }
        ExprText::Length(_, object) => print_between(alloc, out, b"", object, b".length"),
        ExprText::Elem(_, object, index) => {
            print_expression(alloc, out, object)?;
            print_between(alloc, out, b"[", index, b"]")
        }
        ExprText::Call(_, object, x, args) => {
            print_between(alloc, out, b"", object, b".")?;
            print_call(alloc, out, x, args.as_slice())
        }
        ExprText::Make(_, x, args, tweaks) => {
            out.extend_from_slice(b"new ")?;
            print_call(alloc, out, x, args.as_slice())?;
            print_tweaks(alloc, out, tweaks.as_slice())
        }
        ExprText::Array(_, kind, len) => {
            out.extend_from_slice(b"new ")?;
            print_base(out, &kind.base)?;
            print_between(alloc, out, b"[", len, b"]")
        }
    }
}

/// Appends an expression between two texts.
#[cycle(expression)]
pub fn print_between(
    alloc: Global,
    out: &mut Bytes,
    before: &[u8],
    e: &ExprText,
    behind: &[u8],
) -> Result<(), AllocError>
    ensures { OnOk result (out.new ≡ out.old ++ (before.now ++ expression_text (view e.now) ++ behind.now)) }
{
    out.extend_from_slice(before)?;
    print_expression(alloc, out, e)?;
    out.extend_from_slice(behind)
}

// A name and arguments in parentheses.
#[cycle(expression)]
fn print_call(
    alloc: Global,
    out: &mut Bytes,
    x: &Named,
    args: &[ExprText],
) -> Result<(), AllocError>
    ensures { OnOk result (out.new ≡ out.old
        ++ (x.now.name ++ codes "(" ++ arguments_text (views args.now NoArg) ++ codes ")")) }
{
    print_name(out, x)?;
    out.extend_from_slice(b"(")?;
    print_arguments(alloc, out, args)?;
    out.extend_from_slice(b")")
}

#[cycle(expression)]
fn print_arguments(alloc: Global, out: &mut Bytes, args: &[ExprText]) -> Result<(), AllocError>
    ensures { OnOk result (out.new ≡ out.old ++ arguments_text (views args.now NoArg)) }
{
    for (i, e) in args.iter().enumerate() {
        print_separator(out, b", ", i)?;
        print_expression(alloc, out, e)?;
    }
    Ok(())
}

impl Part for ItemText {
    ghost text = { λ x. print_item_text (view_item x) };

    fn print(&self, alloc: Global, out: &mut Bytes) -> Result<(), AllocError> {
        match self {
            ItemText::Text(meaning) => print_literal(out, meaning.as_slice()),
            ItemText::Value(e) => print_expression(alloc, out, e),
        }
    }
}

impl Part for ChangeText {
    ghost text = { λ x. change_text (view_change x) };

    fn print(&self, alloc: Global, out: &mut Bytes) -> Result<(), AllocError> {
        print_name(out, &self.param)?;
        out.extend_from_slice(b": ")?;
        print_joined(alloc, out, b", ", self.actions.as_slice())
    }
}
