// Parts of lines that hold no expression.

ghost use Rattle.std.specs.Prelude.{◌≡◌, ℕ, ◌++◌, ◌==◌, List, [], codes, OnOk, if◌then◌else◌};
ghost use Rattle.std.specs.Fmt.{signed_decimal};
ghost use Rattle.bc_data.specs.SourceTree.{Empty};
ghost use Rattle.bc_data.specs.View.{onto, view_guard, view_param};
ghost use Rattle.bc_print.specs.Canonical.{truth_text, literal_byte, literal_bytes, literal_text, base_text, type_text, formal_text, action_text, tweaks_text, operator_text, joined, guard_text, bind_text, binds_text, param_text};

use bc_data::list::Bytes;
use bc_data::program::Op;
use bc_data::text::decimal;
use bc_data::tree::{ActionText, Base, Bind, FlagText, Formal, Named, ParamText, TypeText};
use std::alloc::{AllocError, Global};

/// A part of a line.
pub trait Part {
    /// The text.
    ghost text: { Self → List ℕ };

    /// Appends the text.
    fn print(&self, alloc: Global, out: &mut Bytes) -> Result<(), AllocError>
        ensures { OnOk result (out.new ≡ out.old ++ text self.now) };
}

/// Appends a separator behind other parts, if there are any.
pub fn print_separator(out: &mut Bytes, separator: &[u8], before: usize) -> Result<(), AllocError>
    ensures { OnOk result (out.new ≡ out.old ++ (if before == 0 then [] else separator.now)) }
{
    if before == 0 {
        Ok(())
    } else {
        out.extend_from_slice(separator)
    }
}

/// Appends parts, with a separator between each two.
pub fn print_joined<T: Part>(
    alloc: Global,
    out: &mut Bytes,
    separator: &[u8],
    parts: &[T],
) -> Result<(), AllocError>
    ensures { OnOk result (out.new ≡ out.old ++ joined T.text separator.now (onto parts.now Empty)) }
{
    for (i, part) in parts.iter().enumerate() {
        print_separator(out, separator, i)?;
        part.print(alloc, out)?;
    }
    Ok(())
}

/// Appends a name.
pub fn print_name(out: &mut Bytes, x: &Named) -> Result<(), AllocError>
    ensures { OnOk result (out.new ≡ out.old ++ x.now.name) }
{
    out.extend_from_slice(x.name.as_slice())
}

/// Appends a name between two texts.
pub fn print_named(
    out: &mut Bytes,
    before: &[u8],
    x: &Named,
    behind: &[u8],
) -> Result<(), AllocError>
    ensures { OnOk result (out.new ≡ out.old ++ (before.now ++ x.now.name ++ behind.now)) }
{
    out.extend_from_slice(before)?;
    print_name(out, x)?;
    out.extend_from_slice(behind)
}

/// Appends a number in decimal.
pub fn print_number(alloc: Global, out: &mut Bytes, n: i32) -> Result<(), AllocError>
    ensures { OnOk result (out.new ≡ out.old ++ signed_decimal n) }
{
    let digits = decimal(alloc, i64::from(n))?;
    out.extend_from_slice(digits.as_slice())
}

/// Appends `true` or `false`.
pub fn print_truth(out: &mut Bytes, b: bool) -> Result<(), AllocError>
    ensures { OnOk result (out.new ≡ out.old ++ truth_text b) }
{
    if b {
        out.extend_from_slice(b"true")
    } else {
        out.extend_from_slice(b"false")
    }
}

fn print_literal_byte(out: &mut Bytes, b: u8) -> Result<(), AllocError>
    ensures { OnOk result (out.new ≡ out.old ++ literal_byte b) }
{
    match b {
        b'\n' => out.extend_from_slice(b"\\n"),
        b'\t' => out.extend_from_slice(b"\\t"),
        b'"' => out.extend_from_slice(b"\\\""),
        b'\\' => out.extend_from_slice(b"\\\\"),
        _ => out.extend_from_slice(&[b]),
    }
}

fn print_literal_bytes(out: &mut Bytes, meaning: &[u8]) -> Result<(), AllocError>
    ensures { OnOk result (out.new ≡ out.old ++ literal_bytes meaning.now) }
{
    for b in meaning {
        print_literal_byte(out, *b)?;
    }
    Ok(())
}

/// Appends a text between quotes, with its escapes.
pub fn print_literal(out: &mut Bytes, meaning: &[u8]) -> Result<(), AllocError>
    ensures { OnOk result (out.new ≡ out.old ++ literal_text meaning.now) }
{
    out.extend_from_slice(b"\"")?;
    print_literal_bytes(out, meaning)?;
    out.extend_from_slice(b"\"")
}

/// Appends a type without brackets.
pub fn print_base(out: &mut Bytes, base: &Base) -> Result<(), AllocError>
    ensures { OnOk result (out.new ≡ out.old ++ base_text base.now) }
{
    match base {
        Base::Int => out.extend_from_slice(b"int"),
        Base::Bool => out.extend_from_slice(b"bool"),
        Base::Class(name) => out.extend_from_slice(name.as_slice()),
    }
}

/// Appends a type, with brackets where it is an array.
pub fn print_type(out: &mut Bytes, kind: &TypeText) -> Result<(), AllocError>
    ensures { OnOk result (out.new ≡ out.old ++ type_text kind.now) }
{
    print_base(out, &kind.base)?;
    if kind.many {
        out.extend_from_slice(b"[]")
    } else {
        Ok(())
    }
}

/// Appends an operator between spaces.
pub fn print_operator(out: &mut Bytes, op: Op) -> Result<(), AllocError>
    ensures { OnOk result (out.new ≡ out.old ++ operator_text op) }
{
    match op {
        Op::Or => out.extend_from_slice(b" || "),
        Op::And => out.extend_from_slice(b" && "),
        Op::Same => out.extend_from_slice(b" == "),
        Op::Differ => out.extend_from_slice(b" != "),
        Op::Less => out.extend_from_slice(b" < "),
        Op::LessEq => out.extend_from_slice(b" <= "),
        Op::More => out.extend_from_slice(b" > "),
        Op::MoreEq => out.extend_from_slice(b" >= "),
        Op::Add => out.extend_from_slice(b" + "),
        Op::Sub => out.extend_from_slice(b" - "),
        Op::Mul => out.extend_from_slice(b" * "),
        Op::Div => out.extend_from_slice(b" / "),
        Op::Rem => out.extend_from_slice(b" % "),
    }
}

impl Part for Formal {
    ghost text = { formal_text };

    fn print(&self, _alloc: Global, out: &mut Bytes) -> Result<(), AllocError> {
        print_type(out, &self.kind)?;
        out.extend_from_slice(b" ")?;
        print_name(out, &self.name)
    }
}

impl Part for ActionText {
    ghost text = { action_text };

    fn print(&self, _alloc: Global, out: &mut Bytes) -> Result<(), AllocError> {
        match self {
            ActionText::Flag(x, b) => {
                print_name(out, x)?;
                out.extend_from_slice(b" := ")?;
                print_truth(out, *b)
            }
            ActionText::Add(_, x) => {
                out.extend_from_slice(b"add ")?;
                print_name(out, x)
            }
            ActionText::Clear(_, x) => {
                out.extend_from_slice(b"clear ")?;
                print_name(out, x)
            }
        }
    }
}

// Actions in braces.
fn print_braces(alloc: Global, out: &mut Bytes, actions: &[ActionText]) -> Result<(), AllocError>
    ensures { OnOk result (out.new ≡ out.old
        ++ (codes "{" ++ joined action_text (codes ", ") (onto actions.now Empty) ++ codes "}")) }
{
    out.extend_from_slice(b"{")?;
    print_joined(alloc, out, b", ", actions)?;
    out.extend_from_slice(b"}")
}

/// Appends the braces behind a `new`, unless they are empty.
pub fn print_tweaks(alloc: Global, out: &mut Bytes, tweaks: &[ActionText]) -> Result<(), AllocError>
    ensures { OnOk result (out.new ≡ out.old ++ tweaks_text (onto tweaks.now Empty)) }
{
    if tweaks.is_empty() {
        Ok(())
    } else {
        print_braces(alloc, out, tweaks)
    }
}

impl Part for Bind {
    ghost text = { bind_text };

    fn print(&self, _alloc: Global, out: &mut Bytes) -> Result<(), AllocError> {
        print_name(out, &self.tag_type)?;
        out.extend_from_slice(b" ")?;
        print_name(out, &self.variable)
    }
}

// `with` and what is bound.
fn print_with(alloc: Global, out: &mut Bytes, binds: &[Bind]) -> Result<(), AllocError>
    ensures { OnOk result (out.new ≡ out.old
        ++ (codes " with " ++ joined bind_text (codes " and ") (onto binds.now Empty))) }
{
    out.extend_from_slice(b" with ")?;
    print_joined(alloc, out, b" and ", binds)
}

fn print_binds(alloc: Global, out: &mut Bytes, binds: &[Bind]) -> Result<(), AllocError>
    ensures { OnOk result (out.new ≡ out.old ++ binds_text (onto binds.now Empty)) }
{
    if binds.is_empty() {
        Ok(())
    } else {
        print_with(alloc, out, binds)
    }
}

fn print_guard(out: &mut Bytes, guard: &FlagText) -> Result<(), AllocError>
    ensures { OnOk result (out.new ≡ out.old ++ guard_text (view_guard guard.now)) }
{
    match guard {
        FlagText::Flag(x) => print_name(out, x),
        FlagText::Truth(b) => print_truth(out, *b),
        FlagText::Not(inner) => {
            out.extend_from_slice(b"!")?;
            print_guard(out, inner)
        }
        FlagText::And(left, right) => {
            print_guard(out, left)?;
            out.extend_from_slice(b" and ")?;
            print_guard(out, right)
        }
        FlagText::Or(left, right) => {
            print_guard(out, left)?;
            out.extend_from_slice(b" or ")?;
            print_guard(out, right)
        }
        FlagText::Group(inner) => {
            out.extend_from_slice(b"(")?;
            print_guard(out, inner)?;
            out.extend_from_slice(b")")
        }
    }
}

impl Part for ParamText {
    ghost text = { λ x. param_text (view_param x) };

    fn print(&self, alloc: Global, out: &mut Bytes) -> Result<(), AllocError> {
        print_name(out, &self.class)?;
        out.extend_from_slice(b" ")?;
        print_name(out, &self.name)?;
        out.extend_from_slice(b" in ")?;
        print_guard(out, &self.guard)?;
        print_binds(alloc, out, self.binds.as_slice())
    }
}
