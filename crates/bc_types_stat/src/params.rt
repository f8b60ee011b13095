// Parameters of tasks.

ghost use Rattle.std.specs.Prelude.{◌≡◌, None, Some};
ghost use Rattle.bc_data.specs.SourceTree.{Empty};
ghost use Rattle.bc_data.specs.View.{onto, onto_by, view_param};
ghost use Rattle.bc_types_rules.specs.Bodies as rules;
ghost use Rattle.bc_types_rules.specs.Bodies.{check_bind, check_param};
ghost use Rattle.bc_types_rules.specs.Context.{meaning_of, TagIs};
ghost use Rattle.bc_types_rules.specs.Numbering.{try_fold};
ghost use Rattle.bc_names.specs.Answers.{Answers};
ghost use Rattle.bc_types_expr.specs.Looks.{looks};
ghost use Rattle.bc_types_stat.specs.Bodies.{binds_seen, check_params, params_seen, unbound};

use crate::guards::guard;
use crate::lookups::tag_type_at;
use crate::task_scope::TaskScope;
use bc_data::program::Param;
use bc_data::tree::{Bind, Named, ParamText};
use bc_names::{TypeFault, TypeKind};
use bc_types_expr::{Meaning, Table, ask_for, class_at};
use std::alloc::Global;

/// The tag variables that a parameter binds, and the scope behind them.
#[derive(Drop)]
pub struct Binds {
    pub variables: Vec<u32>,
    pub scope: TaskScope,
}

/// The parameters of a task, and the scope behind them.
#[derive(Drop)]
pub struct Params {
    pub each: Vec<Param>,
    pub scope: TaskScope,
}

/// Binds a tag variable that is new. The fifth of a task's parameters is one too many.
fn bind_new(alloc: Global, binds: Binds, x: &Named, tag_type: u32) -> Result<Binds, TypeFault>
    ensures { Answers result binds_seen (rules.bind_variable (binds_seen binds) x.now tag_type None) }
{
    let Binds {
        mut variables,
        scope,
    } = binds;
    let variable = scope.tags();
    let scope = scope.with_variable(alloc, x, tag_type)?;
    variables.push(variable)?;
    Ok(Binds { variables, scope })
}

/// Binds a tag variable that another parameter binds. It has the type that it has there.
fn bind_again(
    binds: Binds,
    x: &Named,
    tag_type: u32,
    variable: u32,
    before: u32,
) -> Result<Binds, TypeFault>
    ensures { Answers result binds_seen (rules.bind_variable (binds_seen binds) x.now tag_type (Some (TagIs variable before))) }
{
    let Binds {
        mut variables,
        scope,
    } = binds;
    ask_for(!variables.contains(&variable), TypeKind::Twice, x.at)?;
    ask_for(before == tag_type, TypeKind::Mismatch, x.at)?;
    variables.push(variable)?;
    Ok(Binds { variables, scope })
}

fn bind_variable(alloc: Global, binds: Binds, x: &Named, tag_type: u32) -> Result<Binds, TypeFault>
    ensures { Answers result binds_seen (rules.bind_variable (binds_seen binds) x.now tag_type (meaning_of binds.scope x.now)) }
{
    match binds.scope.find(x) {
        None => bind_new(alloc, binds, x, tag_type),
        Some(Meaning::Tag(variable, before)) => { bind_again(binds, x, tag_type, variable, before) }
        Some(_) => Err(TypeFault::Refused {
            kind: TypeKind::Twice,
            at: x.at,
        }),
    }
}

/// A bind: its tag type, then its variable.
fn bind(alloc: Global, table: &Table, binds: Binds, b: &Bind) -> Result<Binds, TypeFault>
    ensures { Answers result binds_seen (check_bind (looks table.now) (binds_seen binds) b.now) }
{
    let tag_type = tag_type_at(table, &b.tag_type)?;
    bind_variable(alloc, binds, &b.variable, tag_type)
}

fn binds_of(alloc: Global, table: &Table, scope: TaskScope, bs: &[Bind]) -> Result<Binds, TypeFault>
    ensures { Answers result binds_seen (try_fold (check_bind (looks table.now)) (unbound scope) (onto bs.now Empty)) }
{
    let mut binds = Binds {
        variables: Vec::new(alloc),
        scope,
    };
    for b in bs {
        binds = bind(alloc, table, binds, b)?;
    }
    Ok(binds)
}

/// A parameter: its class, its name, its guard, its binds. The fifth is one too many.
fn add_param(
    alloc: Global,
    table: &Table,
    params: Params,
    p: &ParamText,
) -> Result<Params, TypeFault>
    ensures { Answers result params_seen (check_param (looks table.now) (params_seen params) (view_param p.now)) }
{
    let Params { mut each, scope } = params;
    let class = class_at(table, p.class.name.as_slice(), p.class.at)?;
    scope.check_parameter(&p.name)?;
    let guard = guard(alloc, table, class, &p.guard)?;
    let scope = scope.with_parameter(alloc, &p.name, class)?;
    let binds = binds_of(alloc, table, scope, p.binds.as_slice())?;
    let Binds { variables, scope } = binds;
    let param = Param::new(class, guard, variables);
    each.push(param)?;
    Ok(Params { each, scope })
}

/// The parameters of a task.
pub fn params_of(alloc: Global, table: &Table, ps: &[ParamText]) -> Result<Params, TypeFault>
    ensures { Answers result params_seen (check_params (looks table.now) (onto_by view_param ps.now Empty)) }
{
    let mut params = Params {
        each: Vec::new(alloc),
        scope: TaskScope::new(alloc),
    };
    for p in ps {
        params = add_param(alloc, table, params, p)?;
    }
    Ok(params)
}
