// Which objects carry which tag instances, in two orders.

ghost use Rattle.std.specs.Prelude.{◌≡◌, ◌+◌, ◌≤◌, ◌==◌, ◌||◌, ◌&&◌, not, [], map, OnOk};
ghost use Rattle.bc_params_sets.specs.Members.{IsRising};
ghost use Rattle.bc_params_sets.specs.Bindings.{same_binding, is_bound};
ghost use Rattle.bc_params_sets.specs.declared.tag_index.Binding.{Binding};

use crate::ordered::{Order, find, put, run, take_out};
use std::alloc::{AllocError, Global};
use std::marker::Model;

/// An object carries a tag instance, which has this type.
#[derive(Clone, Copy, Debug, PartialEq, Eq)]
pub struct Binding {
    pub object: u32,
    pub tag_type: u32,
    pub instance: u32,
}

/// The bindings of all objects, by object and by instance. Where there is room, one more goes in without memory.
#[derive(Drop)]
pub struct TagIndex {
    by_object: Vec<Binding>,
    by_instance: Vec<Binding>,
}

impl Model for TagIndex {
    ghost use Rattle.bc_params_sets.specs.Bindings.{Bindings};

    ghost Value = { Bindings };

    ghost use Rattle.bc_params_sets.specs.Indexed.{bindings, IsIndex};

    ghost view = { bindings };

    ghost invariant = { IsIndex };
}

impl TagIndex {
    /// No bindings.
    pub fn new(alloc: Global) -> Self
        ensures { result.bound ≡ [] }
    {
        TagIndex {
            by_object: Vec::new(alloc),
            by_instance: Vec::new(alloc),
        }
    }

    /// Makes room for this many more. On `Err` memory was wanting; the bindings are as they were in each case.
    pub fn reserve(&mut self, n: usize) -> Result<(), AllocError>
        ensures room { OnOk result (n ≤ self.new.spare) }
        ensures bound { self.new.bound ≡ self.old.bound }
        ensures spare { self.old.spare ≤ self.new.spare }
    {
        self.by_object.reserve(n)?;
        self.by_instance.reserve(n)
    }

    /// Whether there is this binding.
    pub fn contains(&self, binding: Binding) -> bool
        ensures { result ≡ is_bound self.now.bound binding }
    {
        find(self.by_object.as_slice(), Order::ByObject, binding).is_ok()
    }

    /// Puts a binding in, if it isn't there. There must be room for it. It takes no memory.
    pub fn insert(&mut self, binding: Binding)
        requires { 1 ≤ self.old.spare }
        ensures bound { (c : Binding) → is_bound self.new.bound c ≡ (is_bound self.old.bound c || same_binding binding c) }
        ensures spare { self.old.spare ≤ self.new.spare + 1 }
    {
        put(&mut self.by_object, Order::ByObject, binding);
        put(&mut self.by_instance, Order::ByInstance, binding);
    }

    /// Takes a binding out, if it is there.
    pub fn remove(&mut self, binding: Binding)
        ensures bound { (c : Binding) → is_bound self.new.bound c ≡ (is_bound self.old.bound c && not (same_binding binding c)) }
        ensures spare { self.old.spare ≤ self.new.spare }
    {
        take_out(&mut self.by_object, Order::ByObject, binding);
        take_out(&mut self.by_instance, Order::ByInstance, binding);
    }

    /// The instances of a type that an object carries, ascending by instance.
    pub fn instances_of(&self, object: u32, tag_type: u32) -> &[Binding]
        ensures members { (c : Binding) → is_bound result.now c ≡ (is_bound self.now.bound c && ((c.object == object) && (c.tag_type == tag_type))) }
        ensures rising { IsRising (map (λ c. c.instance) result.now) }
    {
        run(self.by_object.as_slice(), Order::ByObject, object, tag_type)
    }

    /// The objects that carry an instance of this type, ascending by object.
    pub fn objects_of(&self, tag_type: u32, instance: u32) -> &[Binding]
        ensures members { (c : Binding) → is_bound result.now c ≡ (is_bound self.now.bound c && ((c.tag_type == tag_type) && (c.instance == instance))) }
        ensures rising { IsRising (map (λ c. c.object) result.now) }
    {
        run(
            self.by_instance.as_slice(),
            Order::ByInstance,
            instance,
            tag_type,
        )
    }
}
