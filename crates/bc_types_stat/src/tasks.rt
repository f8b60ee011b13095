// Tasks.

ghost use Rattle.std.specs.Prelude.{◌≡◌};
ghost use Rattle.bc_data.specs.SourceTree.{Empty, Nothing};
ghost use Rattle.bc_data.specs.View.{onto_by, stat_views, view_param};
ghost use Rattle.bc_types_rules.specs.Bodies.{check_task};
ghost use Rattle.bc_names.specs.Answers.{Answers};
ghost use Rattle.bc_types_expr.specs.Looks.{looks};

use crate::params::{Params, params_of};
use crate::statements::block;
use bc_data::list::Bytes;
use bc_data::program::Task;
use bc_data::tree::TaskText;
use bc_names::TypeFault;
use bc_types_expr::{Inside, Table};
use std::alloc::Global;

/// A task: its parameters, then its body.
pub fn task(alloc: Global, table: &Table, t: &TaskText) -> Result<Task, TypeFault>
    ensures { Answers result (λ t. t) (check_task (looks table.now) t.now.at t.now.name (onto_by view_param t.now.params.items Empty) (stat_views t.now.body.items Nothing)) }
{
    let params = params_of(alloc, table, t.params.as_slice())?;
    let Params { each, scope } = params;
    let (mut scope, variables) = scope.into_parts();
    let inside = Inside {
        table,
        me: None,
        result: None,
    };
    let body = block(alloc, &inside, &mut scope, t.body.as_slice())?;
    let name = Bytes::from_slice(alloc, t.name.name.as_slice())?;
    let locals = scope.slots();
    let tags = scope.tags();
    Ok(Task::new(name, t.at, each, variables, locals, tags, body))
}
