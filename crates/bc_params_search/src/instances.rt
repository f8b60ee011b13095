// The sought invocations on chosen objects, instance after instance.

ghost use Rattle.std.specs.Prelude.{◌≡◌, ◌<◌, ◌≤◌, false, [], length, OnOk};
ghost use Rattle.std.specs.List.{list_any};
ghost use Rattle.bc_params_sets.specs.Members.{has};
ghost use Rattle.bc_params_search.specs.Tuples.{IsSmall, IsBound};
ghost use Rattle.bc_params_search.specs.Search.{Adds, NoneBegins, picked, binder, all_carry};

use crate::search::{Search, with};
use bc_data::ids::Ids;
use bc_data::list::List;
use bc_data::run::Invocation;
use bc_params_sets::place::Place;
use bc_params_sets::tag_index::{Binding, TagIndex};
use std::alloc::AllocError;

/// The object at the first place that binds a variable.
fn binder(places: &[Place], objects: &[u32], variable: u32) -> Option<u32>
    ensures { result ≡ binder places.now objects.now variable }
{
    match places {
        [] => None,
        [place, places @ ..] => match objects {
            [] => None,
            [object, objects @ ..] => {
                if place.binds.contains(&variable) {
                    Some(*object)
                } else {
                    binder(places, objects, variable)
                }
            }
        },
    }
}

/// Whether the object at each place that binds a variable carries an instance.
fn all_carry(
    tags: &TagIndex,
    places: &[Place],
    objects: &[u32],
    variable: u32,
    tag_type: u32,
    instance: u32,
) -> bool
    ensures { result ≡ all_carry tags.now.bound places.now objects.now variable tag_type instance }
{
    match places {
        [] => true,
        [place, places @ ..] => match objects {
            [] => true,
            [object, objects @ ..] => {
                let binding = Binding {
                    object: *object,
                    tag_type,
                    instance,
                };
                (!place.binds.contains(&variable) || tags.contains(binding))
                    && all_carry(tags, places, objects, variable, tag_type, instance)
            }
        },
    }
}

/// Whether the object at each place that binds a variable carries one of these instances.
fn all_carry_some(
    tags: &TagIndex,
    places: &[Place],
    objects: &[u32],
    variable: u32,
    tag_type: u32,
    bindings: &[Binding],
) -> bool
    ensures { result ≡ list_any (λ b. all_carry tags.now.bound places.now objects.now variable tag_type b.instance) bindings.now }
{
    bindings.iter().any(|binding| all_carry(
        tags,
        places,
        objects,
        variable,
        tag_type,
        binding.instance,
    ))
}

impl<'a> Search<'a> {
    /// Whether a variable may have an instance with these objects in front. If not, nothing that is sought begins with them.
    fn can_bind(&self, objects: &[u32], variable: u32) -> bool
        ensures { result ≡ false → NoneBegins self.now objects.now }
    {
        let places = self.task.places.as_slice();
        let Some(object) = binder(places, objects, variable) else {
            return true;
        };
        let Some(tag_type) = self.task.variables.get(variable as usize) else {
            return false;
        };
        let bindings = self.tags.instances_of(object, *tag_type);
        all_carry_some(self.tags, places, objects, variable, *tag_type, bindings)
    }

    /// The same for each of these variables.
    pub fn can_bind_all(&self, objects: &[u32], variables: &[u32]) -> bool
        ensures { result ≡ false → NoneBegins self.now objects.now }
    {
        for variable in variables {
            if !self.can_bind(objects, *variable) {
                return false;
            }
        }
        true
    }

    /// Appends the sought invocations on these objects whose instances begin with these, while more are wanted.
    pub fn add_instances(
        &self,
        found: &mut List<Invocation>,
        objects: Ids,
        front: Ids,
    ) -> Result<(), AllocError>
        requires small { IsSmall self.now.task }
        requires bound { IsBound self.now.task }
        requires objects { length objects ≡ length self.now.task.places }
        requires front { length front ≤ length self.now.task.variables }
        requires short { length found.old ≤ self.now.most }
        ensures short { length found.new ≤ self.now.most }
        ensures found { OnOk result (Adds self.now (picked self.now objects front) found.old found.new) }
    {
        let variable = front.len();
        let Some(tag_type) = self.task.variables.get(variable) else {
            return self.add_one(found, objects, front);
        };
        let Some(object) = binder(
            self.task.places.as_slice(),
            objects.as_slice(),
            variable as u32,
        ) else {
            return Ok(());
        };
        for binding in self.tags.instances_of(object, *tag_type) {
            if found.len() >= self.most {
                return Ok(());
            }
            if !all_carry(
                self.tags,
                self.task.places.as_slice(),
                objects.as_slice(),
                variable as u32,
                *tag_type,
                binding.instance,
            ) {
                continue;
            }
            self.add_instances(found, objects, with(front, binding.instance))?;
        }
        Ok(())
    }
}
