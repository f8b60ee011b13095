//! Checking of expressions: the code and the type of an expression, or its first fault.
#![tactic(auto)]

mod ask;
mod calls;
mod expressions;
mod inside;
mod lookups;
mod making;
mod members;
mod operators;
mod scope;
mod table;
mod typed;
mod value_type;

pub use ask::ask_for;
pub use expressions::{call, expression};
pub use inside::Inside;
pub use lookups::{class_at, flag_at, shape_of, variable_at};
pub use scope::{InScope, Meaning, Scope};
pub use table::{ClassTypes, Signature, Table};
pub use typed::{Argument, Arguments, Called, Typed, place_of};
pub use value_type::ValueType;
