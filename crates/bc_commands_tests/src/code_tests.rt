// The top call over objects in memory: `code`.

use crate::calls::{is_told, sound};
use std::alloc::{AllocError, Global};
use std::process::Abort;

fn expect_listed(
    rt: &impl Abort,
    alloc: Global,
    text: &str,
    listing: &str,
) -> Result<(), AllocError> {
    let rest = is_told(rt, alloc, &["code", "p"], sound(text, b""), 0, listing, "")?;
    assert!(rt; !rest.has_stop);
    assert_eq!(rt; rest.asked, 1);
    Ok(())
}

#[test]
fn lists_a_task(rt: HostRuntime) -> Result<(), AllocError> {
    expect_listed(
        &rt,
        rt.alloc(),
        "task startup(StartupObject s in initialstate) {\n  print(\"hello\\n\");\n  taskexit(s: initialstate := false);\n}\n",
        "task startup:\n  0 PrintText \"hello\\n\"\n  1 ExitFlag 0 0 false\n  2 Exit\n  3 Exit\n",
    )
}

#[test]
fn lists_a_loop(rt: HostRuntime) -> Result<(), AllocError> {
    expect_listed(
        &rt,
        rt.alloc(),
        "task t(StartupObject s in initialstate) { int i = 0; while (i < 2) { i = i + 1; } }",
        "task t:\n  0 Int 0\n  1 Store 1\n  2 Load 1\n  3 Int 2\n  4 Less\n  5 JumpIfNot 12\n  6 Turn\n  7 Load 1\n  8 Int 1\n  9 Add\n  10 Store 1\n  11 Jump 2\n  12 Exit\n",
    )
}

const CELLS: &str = r#"tagtype T;
class Cell {
  flag on;
  int v;
  Cell[] all;
  Cell(int v) { this.v = v; }
  int twice(int n) { if (n > 0 && !(this.v == n)) { return n * 2; } return -n; }
  void put(bool b, int n) { assert(b || n != 0); this.all[n].v = n % 3; }
}
task make(StartupObject s in initialstate) {
  tag t = new tag(T);
  Cell c = new Cell(s.input.length){on := true, add t};
  c.all = new Cell[2];
  c.put(true, c.twice(1));
  c.twice(4);
  print("a\t\"b\"\\\n", c.v, true);
  taskexit(s: initialstate := false, add t);
}
task spend(Cell c in on with T t) { taskexit(c: on := false, clear t); }
"#;

const CELLS_LISTED: &str = r#"task make:
  0 NewTag 0 0
  1 Load 0
  2 Field 0
  3 Length
  4 NewObject 1
  5 SetFlag 0 true
  6 AddTag 0
  7 Make 1 1
  8 Store 1
  9 Load 1
  10 Int 2
  11 NewArray Cell[]
  12 SetField 1
  13 Load 1
  14 Bool true
  15 Load 1
  16 Int 1
  17 Call 1 0 1
  18 Call 1 1 2
  19 Load 1
  20 Int 4
  21 Call 1 0 1
  22 Pop
  23 PrintText "a\t\"b\"\\\n"
  24 Load 1
  25 Field 0
  26 PrintInt
  27 Bool true
  28 PrintBool
  29 ExitFlag 0 0 false
  30 ExitAdd 0 0
  31 Exit
  32 Exit
task spend:
  0 ExitFlag 0 0 false
  1 ExitClear 0 0
  2 Exit
  3 Exit
maker Cell:
  0 Load 0
  1 Load 1
  2 SetField 0
  3 Return
method Cell.twice:
  0 Load 1
  1 Int 0
  2 More
  3 JumpIfNot 10
  4 Load 0
  5 Field 0
  6 Load 1
  7 Same
  8 Not
  9 Jump 11
  10 Bool false
  11 JumpIfNot 17
  12 Load 1
  13 Int 2
  14 Mul
  15 ReturnValue
  16 Jump 17
  17 Load 1
  18 Neg
  19 ReturnValue
  20 Null
  21 ReturnValue
method Cell.put:
  0 Load 1
  1 JumpIf 6
  2 Load 2
  3 Int 0
  4 Differ
  5 Jump 7
  6 Bool true
  7 Assert
  8 Load 0
  9 Field 1
  10 Load 2
  11 Elem
  12 Load 2
  13 Int 3
  14 Rem
  15 SetField 0
  16 Return
"#;

#[test]
fn lists_classes_behind_tasks(rt: HostRuntime) -> Result<(), AllocError> {
    expect_listed(&rt, rt.alloc(), CELLS, CELLS_LISTED)
}

#[test]
fn lists_no_refused_text(rt: HostRuntime) -> Result<(), AllocError> {
    let text = "task t(StartupObject s in initialstate) {\n  x = 1;\n}\n";
    let refused = "refused: Unknown at 2:3\n";
    is_told(
        &rt,
        rt.alloc(),
        &["code", "p"],
        sound(text, b""),
        1,
        "",
        refused,
    )?;
    Ok(())
}
