// Texts, and their canonical texts.

ghost use Rattle.std.specs.Prelude.{◌≤◌, length};

use bc_data::list::Bytes;
use bc_print::print_tree;
use bc_read::reader::read_tree;
use std::alloc::Global;
use std::process::Abort;
use std::test::Fail;

/// The canonical text of a text that has a tree.
fn printed(alloc: Global, text: &[u8]) -> Result<Bytes, Fail>
    requires { length text.now ≤ 1048576 }
{
    match read_tree(alloc, text) {
        Ok(tree) => Ok(print_tree(alloc, &tree)?),
        Err(_) => Err("a text has a tree".into()),
    }
}

fn is_printed(rt: &impl Abort, alloc: Global, text: &[u8], want: &[u8]) -> Result<(), Fail> {
    assert!(rt; text.len() < 1000);
    assert_eq!(rt; printed(alloc, text)?.as_slice(), want);
    Ok(())
}

const CHOICES: &[u8] = b"class N{flag f;flag g;int v;}task t(N x in f and!g){
if(x.v<0){x.v=-x.v;}else{assert(x.v!=1);}taskexit(x:f:=false,g:=true);}";

#[test]
fn indents_choices(rt: HostRuntime) -> Result<(), Fail> {
    is_printed(
        &rt,
        rt.alloc(),
        CHOICES,
        b"class N {
  flag f;
  flag g;
  int v;
}
task t(N x in f and !g) {
  if (x.v < 0) {
    x.v = -x.v;
  } else {
    assert(x.v != 1);
  }
  taskexit(x: f := false, g := true);
}
",
    )
}

#[test]
fn prints_nothing_of_an_empty_program(rt: HostRuntime) -> Result<(), Fail> {
    is_printed(&rt, rt.alloc(), b"", b"")
}

const METHODS: &[u8] = b"class A{A(int[]a,A o){}bool[]m(){
while((!false)){{return;}}if(true){}return a[a.length];}void n(){}}";

#[test]
fn indents_methods(rt: HostRuntime) -> Result<(), Fail> {
    is_printed(
        &rt,
        rt.alloc(),
        METHODS,
        b"class A {
  A(int[] a, A o) {
  }
  bool[] m() {
    while ((!false)) {
      {
        return;
      }
    }
    if (true) {
    }
    return a[a.length];
  }
  void n() {
  }
}
",
    )
}

const STATEMENTS: &[u8] = br#"tagtype T;task u(A x in!(f or true)with T p and T q,A y in false){
int[]a=new int[2];tag t=new tag(T);x.o.m(2147483647,--5);
new A(this,null){f:=true,add t};new A();print("a\tb\"\\\n",x);
taskexit(x:clear p,add t;y:f:=true);taskexit();}"#;

#[test]
fn spaces_each_statement(rt: HostRuntime) -> Result<(), Fail> {
    is_printed(
        &rt,
        rt.alloc(),
        STATEMENTS,
        br#"tagtype T;
task u(A x in !(f or true) with T p and T q, A y in false) {
  int[] a = new int[2];
  tag t = new tag(T);
  x.o.m(2147483647, --5);
  new A(this, null){f := true, add t};
  new A();
  print("a\tb\"\\\n", x);
  taskexit(x: clear p, add t; y: f := true);
  taskexit();
}
"#,
    )
}
