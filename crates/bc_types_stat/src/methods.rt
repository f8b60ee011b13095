// Methods and constructors.

ghost use Rattle.std.specs.Prelude.{◌≡◌, ◌||◌, nat_eq, not, is_some};
ghost use Rattle.std.specs.Cmp.Lexicographic.{pointwise};
ghost use Rattle.bc_data.specs.SourceTree.{Empty, Nothing};
ghost use Rattle.bc_data.specs.View.{onto, stat_views, view_method};
ghost use Rattle.bc_types_rules.specs.Bodies.{check_formal, check_maker, check_method, result_at};
ghost use Rattle.bc_types_rules.specs.Got.{ask, NoReturn};
ghost use Rattle.bc_types_rules.specs.Statements as rules;
ghost use Rattle.bc_names.specs.Answers.{Answers};
ghost use Rattle.bc_types_expr.specs.Looks.{looks};
ghost use Rattle.bc_types_stat.specs.Bodies.{check_formals, formals_seen};

use crate::leaves::all_leave;
use crate::statements::block;
use bc_data::list::Bytes;
use bc_data::program::{Method, Shape};
use bc_data::run::Place;
use bc_data::tree::{Formal, MethodText, StatText, TypeText};
use bc_names::{TypeFault, TypeKind};
use bc_types_expr::{Inside, Scope, Table, ask_for, shape_of};
use std::alloc::Global;

const MOST_FORMALS: u32 = 16;

/// The formals' shapes, and the scope behind them.
#[derive(Drop)]
pub struct Formals {
    pub shapes: Vec<Shape>,
    pub scope: Scope,
}

fn result_of(table: &Table, kind: &Option<TypeText>) -> Result<Option<Shape>, TypeFault>
    ensures { Answers result (λ r. r) (result_at (looks table.now) kind.now) }
{
    match kind {
        None => Ok(None),
        Some(kind) => {
            let shape = shape_of(table, kind)?;
            Ok(Some(shape))
        }
    }
}

impl Formals {
    /// A formal: its type, then its name. The seventeenth is one too many.
    fn add(&mut self, alloc: Global, table: &Table, x: &Formal) -> Result<(), TypeFault>
        ensures { Answers result (λ _. formals_seen self.new) (check_formal (looks table.now) (formals_seen self.old) x.now) }
    {
        let shape = shape_of(table, &x.kind)?;
        ask_for(self.scope.is_free(&x.name), TypeKind::Twice, x.name.at)?;
        ask_for(
            self.scope.count() < MOST_FORMALS,
            TypeKind::TooMany,
            x.name.at,
        )?;
        self.scope.declare_slot(alloc, &x.name, shape)?;
        self.shapes.push(shape)?;
        Ok(())
    }
}

fn formals_of(alloc: Global, table: &Table, xs: &[Formal]) -> Result<Formals, TypeFault>
    ensures { Answers result formals_seen (check_formals (looks table.now) (onto xs.now Empty)) }
{
    let mut formals = Formals {
        shapes: Vec::new(alloc),
        scope: Scope::of_method(alloc),
    };
    for x in xs {
        formals.add(alloc, table, x)?;
    }
    Ok(formals)
}

/// With a result a body surely leaves.
fn ask_return(asked: Option<Shape>, body: &[StatText], at: Place) -> Result<(), TypeFault>
    ensures { Answers result (λ _. tt) (ask (not (is_some asked) || rules.all_leave (stat_views body.now Nothing)) NoReturn at) }
{
    ask_for(asked.is_none() || all_leave(body), TypeKind::NoReturn, at)
}

/// A method of a class: its result, its formals, its body. With a result its body surely leaves.
pub fn method(alloc: Global, table: &Table, me: u32, m: &MethodText) -> Result<Method, TypeFault>
    ensures { Answers result (λ m. m) (check_method (looks table.now) me (view_method m.now)) }
{
    let asked = result_of(table, &m.result)?;
    let mut formals = formals_of(alloc, table, m.formals.as_slice())?;
    let inside = Inside {
        table,
        me: Some(me),
        result: asked,
    };
    let body = block(alloc, &inside, &mut formals.scope, m.body.as_slice())?;
    ask_return(asked, m.body.as_slice(), m.name.at)?;
    let name = Bytes::from_slice(alloc, m.name.name.as_slice())?;
    let locals = formals.scope.slots();
    Ok(Method::new(name, formals.shapes, locals, asked, body))
}

/// A constructor has its class's name.
pub fn maker(
    alloc: Global,
    table: &Table,
    me: u32,
    class_name: &[u8],
    m: &MethodText,
) -> Result<Method, TypeFault>
    ensures { Answers result (λ m. m) (check_maker (looks table.now) me class_name.now (view_method m.now)) }
{
    ask_for(
        m.name.name.as_slice() == class_name,
        TypeKind::Unknown,
        m.name.at,
    )?;
    method(alloc, table, me, m)
}
