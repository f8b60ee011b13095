// Trees and refusals of texts.

ghost use Rattle.std.specs.Prelude.{◌≤◌, length};

use bc_data::tree::{Item, ItemText, StatText, Tree};
use bc_lex::tokens;
use bc_parse::parse;
use std::alloc::Global;
use std::process::Abort;
use std::test::Fail;

/// What a tree is at a glance: its number of items, and the `Debug` form of the first thing that its last task prints.
fn glance(alloc: Global, tree: &Tree) -> Result<String, Fail> {
    let mut shown = format!(in alloc; "{} items", tree.items.len())?;
    if let Some(Item::Task(task)) = tree.items.last() {
        if let Some(StatText::Print(_, items)) = task.body.first() {
            if let Some(ItemText::Value(value)) = items.first() {
                let value = format!(in alloc; ", {value:?}")?;
                shown.push_str(value.as_str())?;
            }
        }
    }
    Ok(shown)
}

/// A glance at the tree of a text, or the `Debug` form of its fault.
#[tactic(auto, using(bc_parse::proofs::Lexed::ended))]
fn read(alloc: Global, text: &str) -> Result<String, Fail>
    requires { length text.now ≤ 1048576 }
{
    match tokens(alloc, text.as_bytes()) {
        Ok(found) => match parse(alloc, text.as_bytes(), &found) {
            Ok(tree) => glance(alloc, &tree),
            Err(fault) => Ok(format!(in alloc; "{fault:?}")?),
        },
        Err(fault) => Ok(format!(in alloc; "{fault:?}")?),
    }
}

/// A task whose first statement stands in line 2, from column 3 on.
fn task(alloc: Global, statement: &str) -> Result<String, Fail> {
    Ok(format!(in alloc; "task t(StartupObject s in initialstate) {{\n  {statement}")?)
}

// A text is read as it says.
fn is_read(rt: &impl Abort, alloc: Global, text: &str, want: &str) -> Result<(), Fail> {
    assert!(rt; text.len() < 1000);
    let shown = read(alloc, text)?;
    assert_eq!(rt; shown.as_str(), want);
    Ok(())
}

#[test]
fn trees(rt: HostRuntime) -> Result<(), Fail> {
    let alloc = rt.alloc();
    is_read(&rt, alloc, "", "0 items")?;
    let text =
        "class N { flag f; int[] v; N(int a) { this.v = new int[a]; } void m() {} }\ntagtype k;\ntask t(N x in f and !(g or true) with k a and k b) { tag c = new tag(k); x.v[0] = x.v.length; taskexit(x: f := false, add a; y: clear b); }";
    is_read(&rt, alloc, text, "3 items")
}

#[test]
fn operators_bind(rt: HostRuntime) -> Result<(), Fail> {
    let alloc = rt.alloc();
    let text = task(alloc, "print(1 - 2 * -3 - 4);\n}")?;
    is_read(
        &rt,
        alloc,
        text.as_str(),
        "1 items, Two(Place { line: 2, column: 20 }, Sub, Two(Place { line: 2, column: 11 }, Sub, Int(Place { line: 2, column: 9 }, 1), Two(Place { line: 2, column: 15 }, Mul, Int(Place { line: 2, column: 13 }, 2), Neg(Place { line: 2, column: 17 }, Int(Place { line: 2, column: 18 }, 3)))), Int(Place { line: 2, column: 22 }, 4))",
    )
}

fn is_refused(
    rt: &impl Abort,
    alloc: Global,
    text: &str,
    line: u32,
    column: u32,
) -> Result<(), Fail> {
    let want = format!(in alloc;
        "Unexpected {{ at: Place {{ line: {line}, column: {column} }} }}"
    )?;
    is_read(rt, alloc, text, want.as_str())
}

#[test]
fn refusals(rt: HostRuntime) -> Result<(), Fail> {
    let cases: [(&str, u32, u32); 7] = [
        ("task t(StartupObject s in initialstate) { taskexit(", 1, 52),
        ("class A {\n", 2, 1),
        ("class A { flag f }", 1, 18),
        ("class A { A a() { return a() } }", 1, 27),
        ("task t(A x in f) { x[;", 1, 22),
        ("task t(A x in f) { x.v; }", 1, 23),
        ("class A {} }", 1, 12),
    ];
    for (text, line, column) in cases {
        is_refused(&rt, rt.alloc(), text, line, column)?;
    }
    Ok(())
}

/// A task whose statement begins with a number or an opening in column 11, with so many more parts behind it.
fn growing(alloc: Global, part: &str, count: usize, end: &str) -> Result<String, Fail> {
    let mut text = String::from_str(alloc, "task t(A x in f) {\n  int x = ")?;
    for _ in 0..count {
        text.push_str(part)?;
    }
    text.push_str(end)?;
    Ok(text)
}

#[test]
fn levels(rt: HostRuntime) -> Result<(), Fail> {
    let alloc = rt.alloc();
    let sum = growing(alloc, "1+", 63, "1; }")?;
    is_read(&rt, alloc, sum.as_str(), "1 items")?;
    let sum = growing(alloc, "1+", 64, "1; }")?;
    let too_deep = "TooDeep { at: Place { line: 2, column: 138 } }";
    is_read(&rt, alloc, sum.as_str(), too_deep)?;
    let open = growing(alloc, "(", 65, "")?;
    let too_deep = "TooDeep { at: Place { line: 2, column: 74 } }";
    is_read(&rt, alloc, open.as_str(), too_deep)
}
