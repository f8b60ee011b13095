// Where `null` fits: a class, and each kind of array.

use crate::texts::{Frame, are_told};
use std::test::Fail;

const IN_METHOD: Frame<'static> = Frame {
    front: "class N { N(int n) { } }
class B { B(bool b) { } }
class D { D(C c, int[] is, bool[] bs, C[] cs) { } }
class C {
  int n;
  bool t;
  C c;
  int[] ns;
  bool[] ts;
  C[] cs;
  void all(C c, int[] is, bool[] bs, C[] cs) { }
  void number(int n) { }
  void truth(bool b) { }
  void test(int i, bool b, C c, int[] is, bool[] bs, C[] cs) {",
    back: "} }",
    rest: "",
};

const FITS: &str = r#"
ok bool[] x = null; C[] y = null;
Mismatch bool x = @null;
ok c = null; is = null; bs = null; cs = null;
Mismatch i = @null;
Mismatch b = @null;
ok c.c = null; c.ns = null; c.ts = null; c.cs = null; cs[0] = null;
Mismatch c.n = @null;
Mismatch c.t = @null;
Mismatch is[0] = @null;
Mismatch bs[0] = @null;
ok c.all(null, null, null, null); new D(null, null, null, null);
Mismatch c.number(@null);
Mismatch c.truth(@null);
Mismatch new N(@null);
Mismatch new B(@null);
"#;

#[test]
fn null_fits_classes_and_arrays(rt: HostRuntime) -> Result<(), Fail> {
    are_told(&rt, rt.alloc(), IN_METHOD, FITS)
}

const OPERANDS: &str = r#"
ok b = c == null; b = is == null; b = bs == null; b = cs == null; b = null == null;
ok b = null == c; b = null == is; b = null == bs; b = null == cs;
ok b = c != null; b = is != null; b = bs != null; b = cs != null; b = null != null;
ok b = null != c; b = null != is; b = null != bs; b = null != cs;
Mismatch b = i @== null;
Mismatch b = null @== i;
Mismatch b = b @== null;
Mismatch b = null @== b;
Mismatch b = i @!= null;
Mismatch b = null @!= i;
Mismatch b = b @!= null;
Mismatch b = null @!= b;
Mismatch i = null @+ 1;
Mismatch i = 1 @+ null;
Mismatch b = null @< 1;
Mismatch b = null @&& b;
Mismatch b = b @|| null;
Mismatch b = @!null;
Mismatch i = @-null;
"#;

#[test]
fn null_as_an_operand(rt: HostRuntime) -> Result<(), Fail> {
    are_told(&rt, rt.alloc(), IN_METHOD, OPERANDS)
}

const PARTS: &str = r#"
Mismatch i = null@.n;
Mismatch i = null@.length;
Mismatch b = null@.q(null);
Mismatch i = null@[0];
Mismatch i = is@[null];
Mismatch is = @new int[null];
Mismatch print(1, @null);
Mismatch assert(@null);
Mismatch if (@null) { }
Mismatch while (@null) { }
Misplaced @return null;
"#;

#[test]
fn null_as_a_part(rt: HostRuntime) -> Result<(), Fail> {
    are_told(&rt, rt.alloc(), IN_METHOD, PARTS)
}

const IN_CLASS: Frame<'static> = Frame {
    front: "class C {",
    back: "}",
    rest: "",
};

const RESULTS: &str = r#"
ok C m() { return null; } int[] n() { return null; } bool[] o() { return null; } C[] p() { return null; }
Mismatch int m() { return @null; }
Mismatch bool m() { return @null; }
Misplaced C() { @return null; }
"#;

#[test]
fn null_as_a_result(rt: HostRuntime) -> Result<(), Fail> {
    are_told(&rt, rt.alloc(), IN_CLASS, RESULTS)
}
