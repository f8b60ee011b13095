// The bindings of an object's tags.

ghost use Rattle.std.specs.Prelude.{◌≡◌, ◌+◌, ◌≤◌, ◌&&◌, ◌||◌, not, ◌++◌, length, slice_get, option_copied};
ghost use Rattle.bc_mean.specs.Enabled.{is_some_and};
ghost use Rattle.bc_params_sets.specs.declared.tag_index.Binding.{Binding};
ghost use Rattle.bc_params_sets.specs.Bindings.{same_binding, is_bound};
ghost use Rattle.bc_params.specs.Look.{tags_in, is_binding_of, is_own};

use bc_data::run::{Body, TagRef};
use bc_params_sets::tag_index::{Binding, TagIndex};

/// The type of an instance, if it is there.
fn type_of(types: &[u32], made: &[u32], instance: u32) -> Option<u32>
    ensures { result ≡ slice_get (types.now ++ made.now) instance }
{
    let place = instance as usize;
    if place < types.len() {
        Some(types[place])
    } else {
        made.get(place - types.len()).copied()
    }
}

/// What the tag of an object binds.
fn binding_of(types: &[u32], made: &[u32], id: u32, tag: TagRef) -> Option<Binding>
    ensures { (c : Binding) → is_some_and result (λ b. same_binding b c) ≡ is_binding_of (types.now ++ made.now) id c tag }
{
    let TagRef::Old(instance) = tag else {
        return None;
    };
    match type_of(types, made, instance) {
        Some(tag_type) => Some(Binding {
            object: id,
            tag_type,
            instance,
        }),
        None => None,
    }
}

fn put_out(index: &mut TagIndex, binding: Option<Binding>)
    ensures bound { (c : Binding) → is_bound index.new.bound c ≡ (is_bound index.old.bound c && not (is_some_and binding (λ b. same_binding b c))) }
    ensures spare { index.old.spare ≤ index.new.spare }
{
    if let Some(binding) = binding {
        index.remove(binding);
    }
}

fn put_in(index: &mut TagIndex, binding: Option<Binding>)
    requires { 1 ≤ index.old.spare }
    ensures bound { (c : Binding) → is_bound index.new.bound c ≡ (is_bound index.old.bound c || is_some_and binding (λ b. same_binding b c)) }
    ensures spare { index.old.spare ≤ index.new.spare + 1 }
{
    if let Some(binding) = binding {
        index.insert(binding);
    }
}

/// The tags of a body, none where it is absent.
pub fn tags_in(body: Option<&Body>) -> &[TagRef]
    ensures { result.now ≡ tags_in (option_copied body.entry) }
{
    match body {
        Some(body) => body.tags.as_slice(),
        None => &[],
    }
}

/// Takes the bindings of an object's tags out.
pub fn unbind(index: &mut TagIndex, types: &[u32], made: &[u32], id: u32, tags: &[TagRef])
    ensures bound { (c : Binding) → is_bound index.new.bound c ≡ (is_bound index.old.bound c && not (is_own (types.now ++ made.now) id tags.now c)) }
    ensures spare { index.old.spare ≤ index.new.spare }
{
    for tag in tags {
        put_out(index, binding_of(types, made, id, *tag));
    }
}

/// Puts the bindings of an object's tags in. There must be room for as many.
pub fn bind(index: &mut TagIndex, types: &[u32], made: &[u32], id: u32, tags: &[TagRef])
    requires { length tags.now ≤ index.old.spare }
    ensures bound { (c : Binding) → is_bound index.new.bound c ≡ (is_bound index.old.bound c || is_own (types.now ++ made.now) id tags.now c) }
    ensures spare { index.old.spare ≤ index.new.spare + length tags.now }
{
    for tag in tags {
        put_in(index, binding_of(types, made, id, *tag));
    }
}
