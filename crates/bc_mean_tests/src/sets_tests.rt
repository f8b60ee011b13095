// The parameter sets behind the first commit of a text: the enabled invocations that they find for each object, against
// lists by hand and against the list of all that are enabled.

ghost use Rattle.std.specs.Prelude.{◌≡◌, ◌<◌, ◌≤◌, [], ◌∷◌, length, IfOk};
ghost use Rattle.bc_mean.specs.Changes.{apply_changes};
ghost use Rattle.bc_mean.specs.Enabled.{IsEnabled};
ghost use Rattle.bc_mean.specs.Outcome.{outcome};
ghost use Rattle.bc_mean.specs.Store.{Fits};
ghost use Rattle.bc_store.specs.Store.{CanPublish};

use crate::rows::{accepted, push_invocation};
use bc_data::list::List;
use bc_data::program::Program;
use bc_data::run::{Body, Changes, Invocation, Outcome, Ran, Written};
use bc_law_histories::start_fits;
use bc_law_publishing::commits_can_be_published;
use bc_law_soundness::keeps_fit;
use bc_mean::plain::Plain;
use bc_mean::{all_enabled, apply, is_enabled, start};
use bc_mean_run::run_tree;
use bc_params::params::Params;
use bc_steps::Steps;
use bc_store::store::Store;
use std::alloc::Global;
use std::marker::Brand;
use std::process::Abort;
use std::sync::ledger::{Blank, Ledger};
use std::test::Fail;

// A store, plain and kept.
#[derive(Drop)]
struct Stores {
    plain: Plain,
    kept: Store,
}

// The stores at the start of a run on this input.
fn started(alloc: Global, program: &Program, input: &[u8]) -> Result<Stores, Fail>
    requires { length input.now ≤ 65536 }
    ensures fits { IfOk result (λ s. Fits program.now s.plain) }
    ensures same { IfOk result (λ s. s.kept.plain ≡ s.plain) }
{
    program.is_well_typed();
    start_fits();
    Ok(Stores {
        plain: start(alloc, program, input)?,
        kept: Store::make(alloc, input)?,
    })
}

fn enabled(alloc: Global, program: &Program, store: &Plain) -> Result<List<Invocation>, Fail>
    requires { Fits program.now store.now }
{
    Ok(all_enabled(alloc, program, store)?)
}

// Publishes changes in the one store, and applies them to the other.
fn changed(alloc: Global, stores: Stores, changes: Changes) -> Result<Stores, Fail>
    requires can { CanPublish stores.plain changes }
    requires same { stores.kept.plain ≡ stores.plain }
    ensures applied { IfOk result (λ s. s.plain ≡ apply_changes stores.plain changes) }
    ensures same { IfOk result (λ s. s.kept.plain ≡ s.plain) }
{
    let Stores {
        mut plain,
        mut kept,
    } = stores;
    let copy = changes.copy(alloc)?;
    kept.reserve_for(&copy)?;
    kept.publish(copy);
    apply(alloc, &mut plain, changes)?;
    Ok(Stores { plain, kept })
}

// The stores behind an invocation, which commits.
fn committed(
    alloc: Global,
    program: &Program,
    stores: Stores,
    v: Invocation,
    out: Outcome,
) -> Result<Stores, Fail>
    requires fits { Fits program.now stores.plain }
    requires same { stores.kept.plain ≡ stores.plain }
    requires enabled { IsEnabled program.now stores.plain v }
    requires out { out ≡ outcome program.now stores.plain v }
    ensures fits { IfOk result (λ s. Fits program.now s.plain) }
    ensures same { IfOk result (λ s. s.kept.plain ≡ s.plain) }
{
    let _ = v;
    program.is_well_typed();
    keeps_fit();
    commits_can_be_published();
    let Outcome { ran, touched: _ } = out;
    match ran {
        Ran::Faulted(_) => Err("the first invocation commits".into()),
        Ran::Commit(changes) => changed(alloc, stores, changes),
    }
}

// The stores behind the first invocation.
fn behind_the_first(rt: &impl Abort, alloc: Global, program: &Program) -> Result<Stores, Fail>
    ensures fits { IfOk result (λ s. Fits program.now s.plain) }
    ensures same { IfOk result (λ s. s.kept.plain ≡ s.plain) }
{
    let stores = started(alloc, program, &[])?;
    let Some(first) = enabled(alloc, program, &stores.plain)?.pop() else {
        return Err("something is enabled at the start".into());
    };
    let v = &first;
    assert!(rt; is_enabled(program, &stores.plain, *v));
    let out = run_tree(alloc, program, &stores.plain, *v)?;
    committed(alloc, program, stores, *v, out)
}

// A line for each object that an enabled invocation names, with the first so many that name it.
fn told(
    alloc: Global,
    program: &Program,
    params: &Params,
    objects: u32,
    most: usize,
) -> Result<String, Fail> {
    let mut text = String::new(alloc);
    for id in 0..objects {
        let found = params.tuples_with(alloc, id, most)?;
        if !found.is_empty() {
            push_line(alloc, &mut text, program, id, found.as_slice())?;
        }
    }
    Ok(text)
}

fn push_line(
    alloc: Global,
    text: &mut String,
    program: &Program,
    id: u32,
    found: &[Invocation],
) -> Result<(), Fail> {
    text.push_str(format!(in alloc; "{id}:")?.as_str())?;
    for v in found {
        text.push_str(" ")?;
        push_invocation(alloc, text, program, *v)?;
    }
    text.push_str("\n")?;
    Ok(())
}

// The sets behind the first invocation of a text find these.
fn finds(rt: &impl Abort, alloc: Global, text: &str, most: usize, lines: &str) -> Result<(), Fail> {
    assert!(rt; text.len() <= 1_048_576);
    let program = accepted(alloc, text)?;
    let stores = behind_the_first(rt, alloc, &program)?;
    let params = Params::make(alloc, &program, &stores.kept)?;
    let found = told(alloc, &program, &params, stores.kept.objects(), most)?;
    assert_eq!(rt; found.as_str(), lines);
    Ok(())
}

const PAIRS: &str = r#"class N { flag f; int v; N(int v) { this.v = v; } }
task startup(StartupObject s in initialstate) {
  new N(0){f := true};
  new N(1){f := true};
  new N(2){f := true};
  taskexit(s: initialstate := false);
}
task pair(N x in f, N y in f) { print(x.v, y.v, " "); }"#;

#[test]
fn pairs_of_different_objects(rt: HostRuntime) -> Result<(), Fail> {
    let lines = "2: pair(2,3) pair(2,4) pair(3,2) pair(4,2)
3: pair(2,3) pair(3,2) pair(3,4) pair(4,3)
4: pair(2,4) pair(3,4) pair(4,2) pair(4,3)
";
    finds(&rt, rt.alloc(), PAIRS, 262_145, lines)
}

#[test]
fn the_first_of_them(rt: HostRuntime) -> Result<(), Fail> {
    let lines = "2: pair(2,3) pair(2,4) pair(3,2)
3: pair(2,3) pair(3,2) pair(3,4)
4: pair(2,4) pair(3,4) pair(4,2)
";
    finds(&rt, rt.alloc(), PAIRS, 3, lines)
}

const JOIN: &str = r#"tagtype T;
class L { flag f; }
class R { flag f; }
task startup(StartupObject s in initialstate) {
  tag a = new tag(T);
  tag b = new tag(T);
  new L(){f := true, add a};
  new R(){f := true, add a};
  new L(){f := true, add b};
  new R(){f := true, add b};
  taskexit(s: initialstate := false);
}
task join(L x in f with T t, R y in f with T t) { }"#;

#[test]
fn objects_joined_by_an_instance(rt: HostRuntime) -> Result<(), Fail> {
    let lines = "2: join(2,3|0)
3: join(2,3|0)
4: join(4,5|1)
5: join(4,5|1)
";
    finds(&rt, rt.alloc(), JOIN, 262_145, lines)
}

const SIXTEEN: &str = r#"tagtype T;
class C { flag f; }
task startup(StartupObject s in initialstate) {
  tag a = new tag(T); tag b = new tag(T); tag c = new tag(T); tag d = new tag(T);
  tag e = new tag(T); tag f = new tag(T); tag g = new tag(T); tag h = new tag(T);
  tag i = new tag(T); tag j = new tag(T); tag k = new tag(T); tag l = new tag(T);
  tag m = new tag(T); tag n = new tag(T); tag o = new tag(T); tag p = new tag(T);
  new C(){f := true, add p, add o, add n, add m, add l, add k, add j, add i, add h, add g, add f, add e, add d, add c, add b, add a};
  taskexit(s: initialstate := false);
}
task each(C c in f with T t) { }"#;

#[test]
fn each_of_sixteen_instances(rt: HostRuntime) -> Result<(), Fail> {
    let lines =
        "2: each(2|0) each(2|1) each(2|2) each(2|3) each(2|4) each(2|5) each(2|6) each(2|7) \
each(2|8) each(2|9) each(2|10) each(2|11) each(2|12) each(2|13) each(2|14) each(2|15)
";
    finds(&rt, rt.alloc(), SIXTEEN, 262_145, lines)
}

// Those that name the object.
fn naming(alloc: Global, all: &[Invocation], id: u32) -> Result<List<Invocation>, Fail> {
    let mut found = List::new(alloc);
    for v in all {
        if v.objects.as_slice().contains(&id) {
            found.push(*v)?;
        }
    }
    Ok(found)
}

// How many objects these name, each as often as it is named.
fn named(all: &[Invocation]) -> usize {
    let mut sum = 0_usize;
    for v in all {
        sum = sum.saturating_add(v.objects.len());
    }
    sum
}

// Whether the sets find those of all enabled invocations that name the object.
fn finds_those(alloc: Global, params: &Params, all: &[Invocation], id: u32) -> Result<bool, Fail> {
    let found = params.tuples_with(alloc, id, 262_145)?;
    Ok(found.as_slice() == naming(alloc, all, id)?.as_slice())
}

// Sets find, for some objects, those of all enabled invocations that name them, and for all objects together as many as
// name one.
fn find_all(
    rt: &impl Abort,
    alloc: Global,
    params: &Params,
    all: &[Invocation],
    objects: u32,
) -> Result<(), Fail> {
    let mut sum = 0_usize;
    for id in 0..objects {
        if id < 8 || id % 100 == 0 {
            assert!(rt; finds_those(alloc, params, all, id)?);
        }
        let found = params.tuples_with(alloc, id, 262_145)?;
        sum = sum.saturating_add(found.len());
    }
    assert_eq!(rt; sum, named(all));
    Ok(())
}

// The sets behind the first invocation of a text find all enabled invocations, of which there are so many.
fn agrees(rt: &impl Abort, alloc: Global, text: &str, count: usize) -> Result<(), Fail> {
    assert!(rt; text.len() <= 1_048_576);
    let program = accepted(alloc, text)?;
    let stores = behind_the_first(rt, alloc, &program)?;
    let params = Params::make(alloc, &program, &stores.kept)?;
    let all = enabled(alloc, &program, &stores.plain)?;
    assert_eq!(rt; all.len(), count);
    find_all(rt, alloc, &params, all.as_slice(), stores.kept.objects())
}

// A text whose first invocation makes so many objects, of which any two are a pair.
fn many(alloc: Global, objects: u32) -> Result<String, Fail> {
    Ok(format!(in alloc;
        "class A {{ flag f; }}
task startup(StartupObject s in initialstate) {{
  int i = 0;
  while (i < {objects}) {{ new A(){{f := true}}; i = i + 1; }}
  taskexit(s: initialstate := false);
}}
task pair(A x in f, A y in f) {{ }}"
    )?)
}

#[test]
fn pairs_of_512_objects(rt: HostRuntime) -> Result<(), Fail> {
    let alloc = rt.alloc();
    agrees(&rt, alloc, many(alloc, 512)?.as_str(), 261_632)
}

#[test]
fn pairs_of_513_objects(rt: HostRuntime) -> Result<(), Fail> {
    let alloc = rt.alloc();
    agrees(&rt, alloc, many(alloc, 513)?.as_str(), 262_656)
}

const MIXED: &str = r#"tagtype T; tagtype U;
class A { flag f; flag g; }
class B { flag h; }
task startup(StartupObject s in initialstate) {
  tag a = new tag(T); tag b = new tag(T); tag c = new tag(U); tag d = new tag(U);
  new A(){f := true, add a, add c};
  new A(){f := true, g := true, add b, add d};
  new B(){h := true, add a, add b};
  new A(){g := true, add b, add c};
  new B(){h := true, add d};
  new B(){add a};
  taskexit(s: initialstate := false);
}
task one(A x in f and !g with T t and U u) { }
task two(A x in f or g with T t, B y in h with T t) { }
task three(A x in f with T t, B y in h with T t, A z in g with U u) { }
task four(A x in true with U u, A y in true with U u, B z in true with T t and T v, B w in !h) { }"#;

#[test]
fn guards_and_instances_of_two_types(rt: HostRuntime) -> Result<(), Fail> {
    agrees(&rt, rt.alloc(), MIXED, 15)
}

// No changes but of one body.
fn one_change(alloc: Global, id: u32, body: Body) -> Result<Changes, Fail>
    ensures { IfOk result (λ c. (c.bodies ≡ record { id = id; body = body } ∷ []) × (c.made ≡ [])) }
{
    let mut bodies = List::new(alloc);
    bodies.push(Written { id, body })?;
    Ok(Changes {
        bodies,
        made: List::new(alloc),
        tags: List::new(alloc),
        text: List::new(alloc),
    })
}

// A body without tag instances, with no flag set.
fn with_no_flags(alloc: Global, body: &Body) -> Result<Body, Fail>
    ensures { IfOk result (λ b. length b.tags ≡ 0) }
{
    if !body.tags.is_empty() {
        return Err("the object has no tag instances".into());
    }
    let mut cleared = body.copy(alloc)?;
    cleared.flags = 0;
    Ok(cleared)
}

// The sets of a store, with room for an update of the object to this body and for the one back.
fn with_room(
    alloc: Global,
    program: &Program,
    store: &Store,
    id: u32,
    body: &Body,
) -> Result<Params, Fail>
    ensures { IfOk result (λ p. 2 ≤ p.spare.updates) }
{
    let mut params = Params::make(alloc, program, store)?;
    params.reserve_for(&one_change(alloc, id, body.copy(alloc)?)?)?;
    Ok(params)
}

// What the sets find with another body for the object, and then again with its own. Neither has tag instances.
fn there_and_back<L: Ledger>(
    alloc: Global,
    program: &Program,
    store: &Store,
    params: &mut Params,
    id: u32,
    other: &Body,
    blank: Blank,
) -> Result<List<String>, Fail>
    requires there { id < length store.now.plain.bodies }
    requires updates { 2 ≤ params.old.spare.updates }
    requires plain { length other.now.tags ≡ 0 }
    requires name { blank.name ≡ L.name }
    requires parts { blank.parts ≡ L.parts }
    requires some { 0 < L.parts }
{
    let mut steps = Steps::<L>::new(blank);
    let body = store.body(id);
    if !body.tags.is_empty() {
        return Err("the object has no tag instances".into());
    }
    let (own, other) = (Some(body), Some(other));
    let types = store.tags();
    params.update(types, &[], id, own, other, &mut steps);
    let there = told(alloc, program, params, store.objects(), 262_145)?;
    params.update(types, &[], id, other, own, &mut steps);
    let back = told(alloc, program, params, store.objects(), 262_145)?;
    let mut texts = List::with_capacity(alloc, 2)?;
    texts.push(there)?;
    texts.push(back)?;
    Ok(texts)
}

// What the sets find with no flag of object 3 set, and then again with its flags.
fn clear_and_back(alloc: Global, program: &Program, store: &Store) -> Result<List<String>, Fail>
    requires { 3 < length store.now.plain.bodies }
{
    let cleared = with_no_flags(alloc, store.body(3))?;
    let mut params = with_room(alloc, program, store, 3, &cleared)?;
    there_and_back::<Brand>(
        alloc,
        program,
        store,
        &mut params,
        3,
        &cleared,
        Blank::new(1),
    )
}

fn are(texts: &[String], there: &str, back: &str) -> bool {
    match texts {
        [one, other] => one.as_str() == there && other.as_str() == back,
        _ => false,
    }
}

#[test]
fn an_update_and_the_one_back(rt: HostRuntime) -> Result<(), Fail> {
    let alloc = rt.alloc();
    let program = accepted(alloc, PAIRS)?;
    let stores = behind_the_first(&rt, alloc, &program)?;
    assert!(rt; stores.kept.objects() > 3);
    let texts = clear_and_back(alloc, &program, &stores.kept)?;
    let without = "2: pair(2,4) pair(4,2)
4: pair(2,4) pair(4,2)
";
    let with = "2: pair(2,3) pair(2,4) pair(3,2) pair(4,2)
3: pair(2,3) pair(3,2) pair(3,4) pair(4,3)
4: pair(2,4) pair(3,4) pair(4,2) pair(4,3)
";
    assert!(rt; are(texts.as_slice(), without, with));
    Ok(())
}
