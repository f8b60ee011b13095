// Values, and what operators give.

ghost use Rattle.std.specs.Prelude.{◌≡◌, ◌≢◌, false, pos, ◌+ℤ◌, ◌-ℤ◌, neg_ℤ, int_div};
ghost use Rattle.std.specs.Int.{w32, int_wrap};
ghost use Rattle.bc_data.specs.declared.run.Value.TheVariants as value;
ghost use Rattle.bc_mean.specs.Values.{arithmetic, divides_by_zero, same_value, same_tag, zero_of, zero_in};

use bc_data::program::{Op, Shape};
use bc_data::run::{Kind, TagRef, Value};

/// The value of a number that stands in the program.
pub fn int_value(n: i32) -> Value
    ensures { result ≡ value.Int (int_wrap w32 n) }
{
    Value::Int(n)
}

/// Whether two values are the same. References are where they are to one object.
pub fn same_value(x: &Value, y: &Value) -> bool
    ensures { result ≡ same_value x.now y.now }
{
    *x == *y
}

pub fn same_tag(s: &TagRef, t: &TagRef) -> bool
    ensures { result ≡ same_tag s.now t.now }
{
    *s == *t
}

/// The value of a cell at first.
pub fn zero_of(shape: Shape) -> Value
    ensures { result ≡ zero_of shape }
{
    match shape {
        Shape::Int => Value::Int(0),
        Shape::Bool => Value::Bool(false),
        Shape::Null => Value::Null,
        Shape::Class(_) => Value::Null,
        Shape::Ints => Value::Null,
        Shape::Bools => Value::Null,
        Shape::Objects(_) => Value::Null,
    }
}

/// The value of an element at first.
pub fn zero_in(kind: Kind) -> Value
    ensures { result ≡ zero_in kind }
{
    match kind {
        Kind::Class(_) => Value::Null,
        Kind::Ints => Value::Int(0),
        Kind::Bools => Value::Bool(false),
        Kind::Objects(_) => Value::Null,
    }
}

pub fn divides_by_zero(op: Op, b: i32) -> bool
    ensures { result ≡ divides_by_zero op b }
{
    match op {
        Op::Div => b == 0,
        Op::Rem => b == 0,
        _ => false,
    }
}

fn sum(a: i32, b: i32) -> i32
    ensures { result ≡ int_wrap w32 (a +ℤ b) }
{
    a.wrapping_add(b)
}

fn difference(a: i32, b: i32) -> i32
    ensures { result ≡ int_wrap w32 (a -ℤ b) }
{
    a.wrapping_sub(b)
}

// The quotient of the least number by -1 wraps.
fn quotient(a: i32, b: i32) -> i32
    requires { b ≢ pos 0 }
    ensures { result ≡ int_wrap w32 (int_div a b) }
{
    a.wrapping_div(b)
}

pub fn negative(a: i32) -> i32
    ensures { result ≡ int_wrap w32 (neg_ℤ a) }
{
    a.wrapping_neg()
}

/// What an operator on two numbers gives. A divisor is not 0.
pub fn arithmetic(op: Op, a: i32, b: i32) -> Option<Value>
    requires { divides_by_zero op b ≡ false }
    ensures { result ≡ arithmetic op a b }
{
    match op {
        Op::Add => Some(Value::Int(sum(a, b))),
        Op::Sub => Some(Value::Int(difference(a, b))),
        Op::Mul => Some(Value::Int(a.wrapping_mul(b))),
        Op::Div => Some(Value::Int(quotient(a, b))),
        Op::Rem => Some(Value::Int(a.wrapping_rem(b))),
        Op::Less => Some(Value::Bool(a < b)),
        Op::LessEq => Some(Value::Bool(a <= b)),
        Op::More => Some(Value::Bool(b < a)),
        Op::MoreEq => Some(Value::Bool(b <= a)),
        Op::Or | Op::And | Op::Same | Op::Differ => None,
    }
}
