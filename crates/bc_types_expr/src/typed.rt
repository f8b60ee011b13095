// Checked expressions.

ghost use Rattle.std.specs.Prelude.{◌≡◌};
ghost use Rattle.bc_data.specs.View.{view};
ghost use Rattle.bc_types_rules.specs.Expressions.{place_of};

use crate::value_type::ValueType;
use bc_data::program::Expr;
use bc_data::run::Place;
use bc_data::tree::ExprText;

/// An expression's code and type.
#[derive(Drop)]
pub struct Typed {
    pub code: Expr,
    pub value_type: ValueType,
}

/// The type and the place of an argument.
#[derive(Drop)]
pub struct Argument {
    pub value_type: ValueType,
    pub at: Place,
}

#[derive(Drop)]
pub struct Arguments {
    pub codes: Vec<Expr>,
    pub each: Vec<Argument>,
}

/// A call's code, and the type of its result if it has one.
#[derive(Drop)]
pub struct Called {
    pub code: Expr,
    pub result: Option<ValueType>,
}

/// The place of an expression: its token, its operator, its `.` or `[`, its `new` or its `(`.
pub fn place_of(e: &ExprText) -> Place
    ensures { result ≡ place_of (view e.now) }
{
    match e {
        ExprText::Int(at, _)
        | ExprText::Truth(at, _)
        | ExprText::Null(at)
        | ExprText::This(at)
        | ExprText::Group(at, _)
        | ExprText::Neg(at, _)
        | ExprText::Not(at, _)
        | ExprText::Two(at, _, _, _)
        | ExprText::Field(at, _, _)
        | ExprText::Length(at, _)
        | ExprText::Elem(at, _, _)
        | ExprText::Call(at, _, _, _)
        | ExprText::Make(at, _, _, _)
        | ExprText::Array(at, _, _) => *at,
        ExprText::Name(x) => x.at,
    }
}
