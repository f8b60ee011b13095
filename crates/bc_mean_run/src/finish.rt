// Expressions of one operand.

ghost use Rattle.std.specs.Prelude.{◌≡◌};
ghost use Rattle.bc_data.specs.ProgramView.{view_expr};
ghost use Rattle.bc_mean_run.specs.Tree.{Mirrors, finished, world_of};

use crate::halt::{Halt, Interrupt};
use crate::making::make_array;
use crate::objects::{read_field, read_length};
use crate::operators::{invert, negate};
use crate::run::Run;
use crate::stage::Stage;
use bc_data::program::Expr;
use bc_data::run::Value;

/// What an expression of one operand comes to, once that has its value.
pub fn finished(stage: &Stage<'_>, e: &Expr, x: Value, run: &mut Run) -> Result<Value, Interrupt>
    ensures { Mirrors result (λ x. x) run.new (finished (world_of stage.now) (view_expr e.now) x run.old) }
{
    match e {
        Expr::Neg(_) => negate(x, run),
        Expr::Not(_) => invert(x, run),
        Expr::Field(at, _, field) => read_field(stage, *at, x, *field, run),
        Expr::Length(at, _) => read_length(stage, *at, x, run),
        Expr::Array(at, kind, _) => make_array(stage.alloc, *at, *kind, x, run),
        _ => Err(Interrupt::Halted(Halt::Wrong)),
    }
}
