// The numbers in the code of accepted texts.

use crate::texts::checked;
use bc_data::program::{Change, Expr, Program, Shape, Stat};
use std::test::Fail;

const TEXT: &str = "tagtype T;
tagtype U;
class A {
  flag e;
  flag f;
  A(int x) { }
  void l() { }
  bool[] m(int x) { { int y = x; } int z = x; return null; }
}
task t(A o in f with U v, A p in f with U v) {
  tag a = new tag(T);
  { tag b = new tag(T); }
  tag b = new tag(T);
  o.m(1);
  taskexit(o: f := true; p: clear v);
}";

fn slots(program: &Program) -> Option<(u32, usize, Option<Shape>, u32)> {
    let class = program.classes().get(1)?;
    let maker = class.maker()?;
    let m = class.methods().get(1)?;
    Some((m.locals(), m.formals().len(), m.result(), maker.locals()))
}

fn variables(program: &Program) -> Option<(u32, u32, usize, usize, u32)> {
    let task = program.tasks().first()?;
    let count = task.variables().len();
    let first = task.variables().first()?;
    Some((
        task.locals(),
        task.tags(),
        task.params().len(),
        count,
        *first,
    ))
}

fn called(program: &Program) -> Option<(u32, u32)> {
    let task = program.tasks().first()?;
    match task.body().get(3)? {
        Stat::Drop(Expr::Call(_, _, class, method, _)) => Some((*class, *method)),
        _ => None,
    }
}

fn changes(program: &Program) -> Option<[Change; 2]> {
    let task = program.tasks().first()?;
    match task.body().get(4)? {
        Stat::Exit(changes) => Some([*changes.first()?, *changes.get(1)?]),
        _ => None,
    }
}

#[test]
fn numbers_in_the_code(rt: HostRuntime) -> Result<(), Fail> {
    let program = match checked(rt.alloc(), TEXT)? {
        Ok(program) => program,
        Err(_) => return Err("a program is accepted".into()),
    };
    assert!(rt; slots(&program) == Some((4, 1, Some(Shape::Bools), 2)));
    assert!(rt; variables(&program) == Some((2, 4, 2, 1, 1)));
    assert!(rt; called(&program) == Some((1, 1)));
    assert!(rt; changes(&program) == Some([Change::Flag(0, 1, true), Change::Clear(1, 0)]));
    Ok(())
}
