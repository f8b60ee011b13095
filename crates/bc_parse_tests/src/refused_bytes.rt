// Texts whose tokens have a fault, with a mark `@` at the fault, and tokens that touch each other. What has no mark has a
// tree.

use crate::answers::{Kind, marked, marked_lines};
use std::alloc::Global;
use std::process::Abort;
use std::test::Fail;

fn marked_rows(rt: &impl Abort, alloc: Global, rows: &[&str], kind: Kind) -> Result<(), Fail> {
    for row in rows {
        marked(rt, alloc, row, kind)?;
    }
    Ok(())
}

#[test]
fn bytes_that_start_no_token(rt: HostRuntime) -> Result<(), Fail> {
    let alloc = rt.alloc();
    let in_texts = [
        "\"@\x01",
        "\"@\x01\"",
        "\"a@\x7f",
        "\"@\t\"",
        "\"\\@q",
        "\"\\@q\"",
        "\"\\n\\@r\"",
        "\"\\@0\"",
    ];
    marked_rows(&rt, alloc, &in_texts, Kind::BadByte)?;
    let between = [
        "@&",
        "a @| b",
        "a @& & b",
        "a && @& b",
        "a\n @^",
        "// x\n@?",
        "/* x\n*/ @'",
        "@\x00",
        "a\r@\x0c",
    ];
    marked_rows(&rt, alloc, &between, Kind::BadByte)
}

#[test]
fn texts_that_stay_open(rt: HostRuntime) -> Result<(), Fail> {
    let rows = [
        "@\"",
        "@\"\\",
        "@\"\\\n\"",
        "@\"a\n\"",
        "@\"a\\\"",
        "@\"a\\\"b\n",
        "a\n\t@\"a\\\\",
        "\"a\"@\"",
        "/* \" */ @\"",
        "// \"\n@\"",
    ];
    marked_rows(&rt, rt.alloc(), &rows, Kind::OpenText)
}

#[test]
fn comments_that_stay_open(rt: HostRuntime) -> Result<(), Fail> {
    let rows = [
        "@/*",
        "@/*/",
        "@/* *",
        "@/* * /",
        "a @/* \n\n",
        "/**/@/*",
        "/* /* */@/*",
        "//*/\n@/*/",
        "\"/*\"@/*",
        "a*@/*",
    ];
    marked_rows(&rt, rt.alloc(), &rows, Kind::OpenComment)
}

#[test]
fn digits_that_are_no_number(rt: HostRuntime) -> Result<(), Fail> {
    let rows = [
        "@00",
        "@01",
        "@007",
        "@2147483648",
        "@4294967296",
        "@99999999999999999999999999",
        "0 @00",
        "-@2147483648",
        "a.@01",
        "x01 @01x",
        "/* 00 */@00",
    ];
    marked_rows(&rt, rt.alloc(), &rows, Kind::NumberRange)
}

// Of several faults of the tokens the first counts, and each comes before any fault of the grammar.
#[test]
fn the_first_fault_of_the_tokens(rt: HostRuntime) -> Result<(), Fail> {
    let alloc = rt.alloc();
    let bytes = [
        "@& \"",
        "@& 00",
        "@& /*",
        "@&\"\n",
        "\"\\@q \x01",
        "\"@\x01\n",
        "} @&",
        "class class\n@&",
        "class A { @| 00",
    ];
    marked_rows(&rt, alloc, &bytes, Kind::BadByte)?;
    let texts = [
        "@\" &\n&",
        "@\"/*",
        "@\"00\n\x01",
        "} } @\"",
        "tagtype\n@\"\n& 00",
    ];
    marked_rows(&rt, alloc, &texts, Kind::OpenText)?;
    let comments = ["@/* & 00 \"", "} @/*", "class A { ( @/* }"];
    marked_rows(&rt, alloc, &comments, Kind::OpenComment)?;
    let numbers = ["@00 &", "@00 \"", "@00/*", "@00\n00", "} ) @00 class"];
    marked_rows(&rt, alloc, &numbers, Kind::NumberRange)
}

const TOUCHING: &str = r#"print(12@ab);
print(0@x1);
print(1@"a");
print("a"@1);
a=-1;
a@==-1;
a=-2147483647;
a=!!b;
a@!=b;
a=b!=c;
a=b@! =c;
a=b<-c;
a=b< @=c;
a=b==c;
a=b@= =c;
a=b- -c--d;
a=b/c;//d
a=b/@;
a=x/**/.b;
a=b&&c||d;
inta=b;
inta a=1;
returna@;
return(a);
return-a;
taskexit(x:f:=true);
taskexit(x:f@: =true);
taskexit(x:f@=true);
taskexit(x@:=true);
tag a=new tag(k);
tag a=@newtag(k);
thisa.b=1;
this_=1;
this.a=1;
x[0]=1;
x[]@=1;
x[]y=1;
"#;

// White space may, but need not, stand between tokens.
#[test]
fn tokens_that_touch(rt: HostRuntime) -> Result<(), Fail> {
    marked_lines(
        &rt,
        rt.alloc(),
        "task t(A x in f) { ",
        TOUCHING,
        "\n}",
        Kind::Unexpected,
    )
}
