// Guards of a task's parameters.

ghost use Rattle.std.specs.Prelude.{◌≡◌};
ghost use Rattle.bc_data.specs.View.{view_guard};
ghost use Rattle.bc_types_rules.specs.Bodies.{check_guard};
ghost use Rattle.bc_data.specs.ProgramView.{view_flag_expr};
ghost use Rattle.bc_names.specs.Answers.{Answers};
ghost use Rattle.bc_types_expr.specs.Looks.{looks};

use bc_data::program::FlagExpr;
use bc_data::tree::FlagText;
use bc_names::TypeFault;
use bc_types_expr::{Table, flag_at};
use std::alloc::Global;

/// A guard over the flags of a class.
pub fn guard(alloc: Global, table: &Table, class: u32, g: &FlagText) -> Result<FlagExpr, TypeFault>
    ensures { Answers result view_flag_expr (check_guard (looks table.now) class (view_guard g.now)) }
{
    match g {
        FlagText::Flag(x) => Ok(FlagExpr::Flag(flag_at(table, class, x)?)),
        FlagText::Truth(b) => Ok(FlagExpr::Truth(*b)),
        FlagText::Not(g) => {
            let x = guard(alloc, table, class, g)?;
            Ok(FlagExpr::Not(Box::new(alloc, x)?))
        }
        FlagText::And(g, h) => {
            let x = guard(alloc, table, class, g)?;
            let y = guard(alloc, table, class, h)?;
            Ok(FlagExpr::And(Box::new(alloc, x)?, Box::new(alloc, y)?))
        }
        FlagText::Or(g, h) => {
            let x = guard(alloc, table, class, g)?;
            let y = guard(alloc, table, class, h)?;
            Ok(FlagExpr::Or(Box::new(alloc, x)?, Box::new(alloc, y)?))
        }
        FlagText::Group(g) => guard(alloc, table, class, g),
    }
}
