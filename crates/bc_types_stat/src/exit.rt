// Statements that are a `taskexit`.

ghost use Rattle.std.specs.Prelude.{◌≡◌, ◌∷◌, ◌==◌, [], not};
ghost use Rattle.std.specs.List.{list_any};
ghost use Rattle.bc_data.specs.SourceTree.{Empty, Exit};
ghost use Rattle.bc_data.specs.View.{onto, onto_by, view_change};
ghost use Rattle.bc_types_rules.specs.Got.{ask, find, Twice, Unknown};
ghost use Rattle.bc_types_rules.specs.Context.{meaning_of};
ghost use Rattle.bc_types_rules.specs.Numbering.{try_fold};
ghost use Rattle.bc_types_rules.specs.Statements.{check_action, check_change, none_named, parameter_of, state};
ghost use Rattle.bc_data.specs.ProgramView.{view_program_stat};
ghost use Rattle.bc_names.specs.Answers.{Answers};
ghost use Rattle.bc_types_expr.specs.Contexts.{context_of};
ghost use Rattle.bc_types_expr.specs.Looks.{looks};
ghost use Rattle.bc_types_stat.specs.Bodies.{exiting_seen, parameter_seen, stated};

use bc_data::program::{Change, Stat};
use bc_data::run::Place;
use bc_data::tree::{ActionText, ChangeText, Named};
use bc_names::{TypeFault, TypeKind};
use bc_types_expr::{Inside, Meaning, Scope, Table, ask_for, flag_at, variable_at};
use std::alloc::Global;

/// The parameter of a task: its number, which is its slot, and its class.
#[derive(Clone, Copy)]
pub struct Parameter {
    pub number: u32,
    pub class: u32,
}

/// The parameters that a `taskexit` has named, and its actions.
#[derive(Drop)]
pub struct Exiting {
    pub named: Vec<u32>,
    pub changes: Vec<Change>,
}

/// The parameter of this name.
fn parameter_at(scope: &Scope, x: &Named) -> Result<Parameter, TypeFault>
    ensures { Answers result parameter_seen (find (parameter_of (meaning_of scope.now x.now)) Unknown x.now.at) }
{
    match scope.find(x) {
        Some(Meaning::Parameter(number, class)) => Ok(Parameter { number, class }),
        _ => Err(TypeFault::Refused {
            kind: TypeKind::Unknown,
            at: x.at,
        }),
    }
}

/// No change before this one names the parameter.
fn ask_unnamed(named: &[u32], number: u32, at: Place) -> Result<(), TypeFault>
    ensures { Answers result (λ _. tt) (ask (not (list_any (λ n. n == number) named.now)) Twice at) }
{
    ask_for(!named.contains(&number), TypeKind::Twice, at)
}

/// The change of an action on a parameter.
fn change_of(
    table: &Table,
    scope: &Scope,
    p: Parameter,
    action: &ActionText,
) -> Result<Change, TypeFault>
    ensures { Answers result (λ c. c ∷ []) (check_action (looks table.now) scope.now (parameter_seen p) [] action.now) }
{
    match action {
        ActionText::Flag(x, b) => Ok(Change::Flag(p.number, flag_at(table, p.class, x)?, *b)),
        ActionText::Add(at, x) => Ok(Change::Add(*at, p.number, variable_at(scope, x)?)),
        ActionText::Clear(_, x) => Ok(Change::Clear(p.number, variable_at(scope, x)?)),
    }
}

/// Appends the change of an action.
fn add_action(
    table: &Table,
    scope: &Scope,
    p: Parameter,
    changes: &mut Vec<Change>,
    action: &ActionText,
) -> Result<(), TypeFault>
    ensures { Answers result (λ _. changes.new.items) (check_action (looks table.now) scope.now (parameter_seen p) changes.old.items action.now) }
{
    let change = change_of(table, scope, p, action)?;
    changes.push(change)?;
    Ok(())
}

/// Appends the changes of actions.
fn add_actions(
    table: &Table,
    scope: &Scope,
    p: Parameter,
    changes: &mut Vec<Change>,
    actions: &[ActionText],
) -> Result<(), TypeFault>
    ensures { Answers result (λ _. changes.new.items) (try_fold (check_action (looks table.now) scope.now (parameter_seen p)) changes.old.items (onto actions.now Empty)) }
{
    for action in actions {
        add_action(table, scope, p, changes, action)?;
    }
    Ok(())
}

/// A change names a parameter that no change before it names. Then come its actions.
fn add_change(
    table: &Table,
    scope: &Scope,
    exiting: &mut Exiting,
    change: &ChangeText,
) -> Result<(), TypeFault>
    ensures { Answers result (λ _. exiting_seen exiting.new) (check_change (looks table.now) scope.now (exiting_seen exiting.old) (view_change change.now)) }
{
    let p = parameter_at(scope, &change.param)?;
    ask_unnamed(exiting.named.as_slice(), p.number, change.param.at)?;
    add_actions(
        table,
        scope,
        p,
        &mut exiting.changes,
        change.actions.as_slice(),
    )?;
    exiting.named.push(p.number)?;
    Ok(())
}

/// The changes of a `taskexit`.
fn changes_of(
    alloc: Global,
    table: &Table,
    scope: &Scope,
    changes: &[ChangeText],
) -> Result<Exiting, TypeFault>
    ensures { Answers result exiting_seen (try_fold (check_change (looks table.now) scope.now) none_named (onto_by view_change changes.now Empty)) }
{
    let mut exiting = Exiting {
        named: Vec::new(alloc),
        changes: Vec::new(alloc),
    };
    for change in changes {
        add_change(table, scope, &mut exiting, change)?;
    }
    Ok(exiting)
}

/// A `taskexit`, in a task alone.
pub fn exit(
    alloc: Global,
    inside: &Inside<'_>,
    scope: &Scope,
    at: Place,
    changes: &[ChangeText],
) -> Result<Stat, TypeFault>
    ensures { Answers result (λ d. stated (view_program_stat d) scope.now) (state (context_of inside.now) scope.now (Exit at (onto_by view_change changes.now Empty))) }
{
    ask_for(inside.me.is_none(), TypeKind::Misplaced, at)?;
    let exiting = changes_of(alloc, inside.table, scope, changes)?;
    Ok(Stat::Exit(exiting.changes))
}
