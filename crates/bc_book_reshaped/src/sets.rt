// The parameter sets, brought to the store that a commit leads to, and back.

ghost use Rattle.std.specs.Prelude.{◌≡◌, ℕ, ◌+◌, ◌<◌, ◌≤◌, ◌++◌, length, option_copied, Option};
ghost use Rattle.bc_data.specs.Typed.{TypedProgram};
ghost use Rattle.bc_data.specs.declared.run.Body.{Body};
ghost use Rattle.bc_mean.specs.Changes.{apply_changes};
ghost use Rattle.bc_mean.specs.Store.{Fits};
ghost use Rattle.bc_mean.specs.Work.{look_of};
ghost use Rattle.bc_store.specs.Resolved.{IsResolved};
ghost use Rattle.bc_store.specs.Store.{CanPublish};
ghost use Rattle.bc_params_sets.specs.Kept.{AreSets};
ghost use Rattle.bc_params.specs.Look.{put_look, HaveOneKind, class_of_either, tags_in};
ghost use Rattle.bc_params.specs.Places.{places_of, HasSpare};
ghost use Rattle.bc_book_reshaped.specs.Reshaped.{id_of, before_of, after_of, reshaped_in, KindsStay, guard_tests, IsThere, CanGoBack};

use crate::reshaped::Reshaped;
use bc_data::run::{Body, Changes};
use bc_params::params::Params;
use bc_steps::Steps;
use bc_store::store::Store;
use std::marker::Brand;
use std::sync::ledger::{Blank, Ledger};

/// The body that the object has in the store, if it is there.
fn before_of(store: &Store, one: Reshaped) -> Option<&Body>
    requires { IsThere store.now.plain one }
    ensures { option_copied result ≡ before_of store.now.plain one }
{
    match one {
        Reshaped::Written { id, .. } => Some(store.body(id)),
        Reshaped::Made { .. } => None,
    }
}

/// The body that the object gets.
fn after_of(changes: &Changes, one: Reshaped) -> Option<&Body>
    ensures { option_copied result ≡ after_of changes.now one }
{
    match one {
        Reshaped::Written { at, .. } => {
            let written = changes.bodies.get(at)?;
            Some(&written.body)
        }
        Reshaped::Made { at, .. } => changes.made.get(at),
    }
}

/// Puts the body in that the object gets.
fn bring_one<L: Ledger>(
    params: &mut Params,
    store: &Store,
    changes: &Changes,
    one: Reshaped,
    steps: &mut Steps<L>,
)
    requires there { IsThere store.now.plain one }
    requires updates { 1 ≤ params.old.spare.updates }
    requires bindings { length (tags_in (after_of changes.now one)) ≤ params.old.spare.bindings }
    ensures sets { (P : TypedProgram) (look : ℕ → Option Body) → look (id_of one) ≡ before_of store.now.plain one → HaveOneKind (before_of store.now.plain one) (after_of changes.now one)
        → AreSets P look (store.now.plain.tags ++ changes.now.tags) params.old.kept → AreSets P (put_look (id_of one) (after_of changes.now one) look) (store.now.plain.tags ++ changes.now.tags) params.new.kept }
    ensures steps { steps.new ≤ steps.old + places_of (class_of_either (before_of store.now.plain one) (after_of changes.now one)) params.old.kept.tasks }
    ensures updates { params.old.spare.updates ≤ params.new.spare.updates + 1 }
    ensures bindings { params.old.spare.bindings ≤ params.new.spare.bindings + length (tags_in (after_of changes.now one)) }
{
    let before = before_of(store, one);
    let after = after_of(changes, one);
    params.update(
        store.tags(),
        changes.tags.as_slice(),
        one.id(),
        before,
        after,
        steps,
    );
}

/// Puts the body back that the object has in the store.
fn take_one_back<L: Ledger>(
    params: &mut Params,
    store: &Store,
    changes: &Changes,
    one: Reshaped,
    steps: &mut Steps<L>,
)
    requires there { IsThere store.now.plain one }
    requires updates { 1 ≤ params.old.spare.updates }
    requires bindings { length (tags_in (before_of store.now.plain one)) ≤ params.old.spare.bindings }
    ensures sets { (P : TypedProgram) (look : ℕ → Option Body) → look (id_of one) ≡ after_of changes.now one → HaveOneKind (after_of changes.now one) (before_of store.now.plain one)
        → AreSets P look (store.now.plain.tags ++ changes.now.tags) params.old.kept → AreSets P (put_look (id_of one) (before_of store.now.plain one) look) (store.now.plain.tags ++ changes.now.tags) params.new.kept }
    ensures updates { params.old.spare.updates ≤ params.new.spare.updates + 1 }
    ensures bindings { params.old.spare.bindings ≤ params.new.spare.bindings + length (tags_in (before_of store.now.plain one)) }
{
    let old = before_of(store, one);
    let new = after_of(changes, one);
    params.update(
        store.tags(),
        changes.tags.as_slice(),
        one.id(),
        new,
        old,
        steps,
    );
}

/// Brings the sets of the store to those of the store with these changes, in which the reshaped objects were found. The memory must be
/// reserved. One step is one test of a guard.
pub fn bring<L: Ledger>(
    params: &mut Params,
    store: &Store,
    changes: &Changes,
    reshaped: &[Reshaped],
    steps: &mut Steps<L>,
)
    requires is { reshaped.now ≡ reshaped_in store.now.plain changes.now }
    requires can { CanPublish store.now.plain changes.now }
    requires resolved { IsResolved changes.now }
    requires kinds { KindsStay store.now.plain changes.now }
    requires spare { HasSpare params.old.spare changes.now }
    ensures sets { (P : TypedProgram) → Fits P store.now.plain → AreSets P (look_of store.now.plain) store.now.plain.tags params.old.kept
        → AreSets P (look_of (apply_changes store.now.plain changes.now)) (apply_changes store.now.plain changes.now).tags params.new.kept }
    ensures steps { (P : TypedProgram) → Fits P store.now.plain → AreSets P (look_of store.now.plain) store.now.plain.tags params.old.kept → steps.new ≤ steps.old + guard_tests P changes.now }
    ensures spare { (P : TypedProgram) → Fits P store.now.plain → CanGoBack params.new.spare store.now.plain changes.now }
{
    for one in reshaped {
        bring_one(params, store, changes, *one, steps);
    }
}

/// Takes the sets of the store with these changes back to those of the store. After `bring` there is memory for it.
pub fn take_back(params: &mut Params, store: &Store, changes: &Changes, reshaped: &[Reshaped])
    requires is { reshaped.now ≡ reshaped_in store.now.plain changes.now }
    requires can { CanPublish store.now.plain changes.now }
    requires resolved { IsResolved changes.now }
    requires kinds { KindsStay store.now.plain changes.now }
    requires spare { CanGoBack params.old.spare store.now.plain changes.now }
    ensures sets { (P : TypedProgram) → Fits P store.now.plain
        → AreSets P (look_of (apply_changes store.now.plain changes.now)) (apply_changes store.now.plain changes.now).tags params.old.kept
        → AreSets P (look_of store.now.plain) store.now.plain.tags params.new.kept }
{
    take_each_back::<Brand>(params, store, changes, reshaped, Blank::new(1));
}

/// The same. Nobody asks for the steps.
fn take_each_back<L: Ledger>(
    params: &mut Params,
    store: &Store,
    changes: &Changes,
    reshaped: &[Reshaped],
    blank: Blank,
)
    requires name { blank.name ≡ L.name }
    requires parts { blank.parts ≡ L.parts }
    requires some { 0 < L.parts }
    requires is { reshaped.now ≡ reshaped_in store.now.plain changes.now }
    requires can { CanPublish store.now.plain changes.now }
    requires resolved { IsResolved changes.now }
    requires kinds { KindsStay store.now.plain changes.now }
    requires spare { CanGoBack params.old.spare store.now.plain changes.now }
    ensures sets { (P : TypedProgram) → Fits P store.now.plain
        → AreSets P (look_of (apply_changes store.now.plain changes.now)) (apply_changes store.now.plain changes.now).tags params.old.kept
        → AreSets P (look_of store.now.plain) store.now.plain.tags params.new.kept }
{
    let mut steps = Steps::<L>::new(blank);
    for one in reshaped {
        take_one_back(params, store, changes, *one, &mut steps);
    }
}
