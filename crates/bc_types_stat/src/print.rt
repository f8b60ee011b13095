// The items of a `print`.

ghost use Rattle.std.specs.Prelude.{◌≡◌, [], map, OnOk};
ghost use Rattle.bc_data.specs.SourceTree.{Empty, Print};
ghost use Rattle.bc_data.specs.View.{onto_by, view_item};
ghost use Rattle.bc_types_rules.specs.Got.{Gives};
ghost use Rattle.bc_types_rules.specs.Numbering.{try_fold};
ghost use Rattle.bc_data.specs.ProgramView.{view_expr, view_part, view_program_stat};
ghost use Rattle.bc_types_rules.specs.Statements.{check_part, ReadValue, state};
ghost use Rattle.bc_names.specs.Answers.{Answers};
ghost use Rattle.bc_types_expr.specs.Contexts.{context_of};
ghost use Rattle.bc_types_expr.specs.Expressions.{typed_seen};
ghost use Rattle.bc_types_stat.specs.Bodies.{item_asked, part_seen, printed_seen, read_next, stated, with_part};

use bc_data::list::Bytes;
use bc_data::program::{Part, Shape, Stat};
use bc_data::run::Place;
use bc_data::tree::ItemText;
use bc_names::{TypeFault, TypeKind};
use bc_types_expr::{Inside, Scope, Typed, ValueType, expression, place_of};
use std::alloc::{AllocError, Global};

/// The parts of a `print` whose items have been read. Items are asked for their types behind all of them, so the
/// place of the first that can't be printed is kept.
#[derive(Drop)]
pub struct Printed {
    pub parts: Vec<Part>,
    pub misfit: Option<Place>,
}

impl Printed {
    /// Appends an item's part, or keeps the place where it can't be printed.
    fn add(&mut self, part: Result<Part, Place>) -> Result<(), AllocError>
        ensures { OnOk result (printed_seen self.new ≡ with_part (printed_seen self.old) (part_seen part)) }
    {
        match part {
            Ok(part) => self.parts.push(part)?,
            Err(at) => self.misfit = self.misfit.or(Some(at)),
        }
        Ok(())
    }

    /// The parts, if each item can be printed.
    fn finish(self) -> Result<Vec<Part>, TypeFault>
        ensures { Answers result (λ v. map view_part v.items) (printed_seen self) }
    {
        match self.misfit {
            None => Ok(self.parts),
            Some(at) => Err(TypeFault::Refused {
                kind: TypeKind::Mismatch,
                at,
            }),
        }
    }
}

/// The part of a value: a number or a truth value is printed.
fn part_of(x: Typed, at: Place) -> Result<Part, Place>
    ensures { part_seen result ≡ check_part (ReadValue (typed_seen x) at) }
{
    match x.value_type {
        ValueType::Known(Shape::Int) => Ok(Part::Number(x.code)),
        ValueType::Known(Shape::Bool) => Ok(Part::Truth(x.code)),
        _ => Err(at),
    }
}

fn read(
    alloc: Global,
    inside: &Inside<'_>,
    scope: &Scope,
    item: &ItemText,
) -> Result<Result<Part, Place>, TypeFault>
    ensures { Answers result part_seen (item_asked (context_of inside.now) scope.now (view_item item.now)) }
{
    match item {
        ItemText::Text(meaning) => {
            let bytes = Bytes::from_slice(alloc, meaning.as_slice())?;
            Ok(Ok(Part::Text(bytes)))
        }
        ItemText::Value(e) => {
            let x = expression(alloc, inside, scope, e)?;
            Ok(part_of(x, place_of(e)))
        }
    }
}

fn read_all(
    alloc: Global,
    inside: &Inside<'_>,
    scope: &Scope,
    items: &[ItemText],
) -> Result<Printed, TypeFault>
    ensures { Answers result printed_seen (try_fold (read_next (context_of inside.now) scope.now) (Gives []) (onto_by view_item items.now Empty)) }
{
    let mut printed = Printed {
        parts: Vec::new(alloc),
        misfit: None,
    };
    for item in items {
        printed.add(read(alloc, inside, scope, item)?)?;
    }
    Ok(printed)
}

/// A `print`. Its items are asked for their types behind all of them.
pub fn print(
    alloc: Global,
    inside: &Inside<'_>,
    scope: &Scope,
    at: Place,
    items: &[ItemText],
) -> Result<Stat, TypeFault>
    ensures { Answers result (λ d. stated (view_program_stat d) scope.now) (state (context_of inside.now) scope.now (Print at (onto_by view_item items.now Empty))) }
{
    let printed = read_all(alloc, inside, scope, items)?;
    let parts = printed.finish()?;
    Ok(Stat::Print(at, parts))
}
