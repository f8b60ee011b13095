// Types of values.

ghost use Rattle.std.specs.Prelude.{◌≡◌, Some, None, IfOk, is_some, option_map};
ghost use Rattle.bc_data.specs.Shapes.{is_null, is_reference, same_shape};
ghost use Rattle.bc_types_rules.specs.Context.{fits, is_bool, is_int, same_flag, element_of};
ghost use Rattle.bc_types_expr.specs.Types.{type_seen};

use bc_data::list::Bytes;
use bc_data::program::Shape;
use std::alloc::{AllocError, Global};

/// The type of a value: a shape, or a class that the program doesn't declare, or an array of such.
#[derive(Drop)]
pub enum ValueType {
    Known(Shape),
    Undeclared(bool, Bytes),
}

fn is_same_shape(a: Shape, b: Shape) -> bool
    ensures { result ≡ same_shape a b }
{
    match (a, b) {
        (Shape::Int, Shape::Int)
        | (Shape::Bool, Shape::Bool)
        | (Shape::Null, Shape::Null)
        | (Shape::Ints, Shape::Ints)
        | (Shape::Bools, Shape::Bools) => true,
        (Shape::Class(c), Shape::Class(d)) | (Shape::Objects(c), Shape::Objects(d)) => c == d,
        _ => false,
    }
}

fn is_null_shape(a: Shape) -> bool
    ensures { result ≡ is_null a }
{
    matches!(a, Shape::Null)
}

fn is_reference_shape(a: Shape) -> bool
    ensures { result ≡ is_reference a }
{
    match a {
        Shape::Int | Shape::Bool | Shape::Null => false,
        Shape::Class(_) | Shape::Ints | Shape::Bools | Shape::Objects(_) => true,
    }
}

impl ValueType {
    /// A type equal to this one.
    pub fn copy(&self, alloc: Global) -> Result<Self, AllocError>
        ensures { IfOk result (λ t. t ≡ self.now) }
    {
        match self {
            ValueType::Known(shape) => Ok(ValueType::Known(*shape)),
            ValueType::Undeclared(many, name) => {
                let name = Bytes::from_slice(alloc, name.as_slice())?;
                Ok(ValueType::Undeclared(*many, name))
            }
        }
    }

    /// Whether a value of this type may stand where another is asked for: the types are the same, or it is `null`
    /// and the other is a class or an array.
    pub fn fits(&self, asked: &ValueType) -> bool
        ensures { result ≡ fits (type_seen self.now) (type_seen asked.now) }
    {
        match (self, asked) {
            (ValueType::Known(a), ValueType::Known(b)) => {
                is_same_shape(*a, *b) || (is_null_shape(*a) && is_reference_shape(*b))
            }
            (ValueType::Known(a), ValueType::Undeclared(_, _)) => is_null_shape(*a),
            (ValueType::Undeclared(_, _), ValueType::Known(_)) => false,
            (ValueType::Undeclared(many, name), ValueType::Undeclared(many_2, name_2)) => {
                *many == *many_2 && name.as_slice() == name_2.as_slice()
            }
        }
    }

    /// Whether it is the type of numbers.
    pub fn is_int(&self) -> bool
        ensures { result ≡ is_int (type_seen self.now) }
    {
        self.fits(&ValueType::Known(Shape::Int))
    }

    /// Whether it is the type of truth values.
    pub fn is_bool(&self) -> bool
        ensures { result ≡ is_bool (type_seen self.now) }
    {
        self.fits(&ValueType::Known(Shape::Bool))
    }

    /// The type of an array's elements.
    pub fn element(self) -> Option<ValueType>
        ensures { option_map type_seen result ≡ element_of (type_seen self) }
    {
        match self {
            ValueType::Known(Shape::Ints) => Some(ValueType::Known(Shape::Int)),
            ValueType::Known(Shape::Bools) => Some(ValueType::Known(Shape::Bool)),
            ValueType::Known(Shape::Objects(class)) => {
                Some(ValueType::Known(Shape::Class(class)))
            }
            ValueType::Undeclared(true, name) => Some(ValueType::Undeclared(false, name)),
            _ => None,
        }
    }

    /// Whether it is an array.
    pub fn is_array(&self) -> bool
        ensures { result ≡ is_some (element_of (type_seen self.now)) }
    {
        match self {
            ValueType::Known(Shape::Ints | Shape::Bools | Shape::Objects(_)) => true,
            ValueType::Undeclared(many, _) => *many,
            _ => false,
        }
    }
}
