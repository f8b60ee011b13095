// Few candidates for the next object, where tag variables or the object that is to be named allow no others.

ghost use Rattle.std.specs.Prelude.{◌≡◌, ℕ, ◌<◌, ◌≤◌, true, ◌∷◌, [], length, map, slice_get, Some, IfOk, IfSome, OnOk};
ghost use Rattle.bc_params_sets.specs.Members.{has};
ghost use Rattle.bc_params_sets.specs.Kept.{is_in};
ghost use Rattle.bc_params_search.specs.Search.{Covers};
ghost use Rattle.bc_params_search.specs.Tied.{Shares, Keeps, HasNear, HasTied};

use crate::search::{Search, is_in_some};
use bc_data::ids::Ids;
use bc_params_sets::id_set::IdSet;
use bc_params_sets::place::{Place, TaskSets};
use bc_params_sets::tag_index::{Binding, TagIndex};
use std::alloc::{AllocError, Global};

/// Puts an object into a set.
fn add(chosen: &mut IdSet, id: u32) -> Result<(), AllocError>
    ensures kept { Keeps chosen.old.members chosen.new.members }
    ensures added { OnOk result (has chosen.new.members id ≡ true) }
{
    chosen.reserve(1)?;
    chosen.insert(id);
    Ok(())
}

/// Puts the objects of these bindings into a set.
fn add_bound(chosen: &mut IdSet, bindings: &[Binding]) -> Result<(), AllocError>
    ensures kept { Keeps chosen.old.members chosen.new.members }
    ensures added { OnOk result ((x : ℕ) → has (map (λ b. b.object) bindings.now) x ≡ true → has chosen.new.members x ≡ true) }
{
    for binding in bindings {
        add(chosen, binding.object)?;
    }
    Ok(())
}

/// Puts the objects into a set that share an instance of a type with an object.
fn add_near(
    tags: &TagIndex,
    chosen: &mut IdSet,
    object: u32,
    tag_type: u32,
) -> Result<(), AllocError>
    ensures kept { Keeps chosen.old.members chosen.new.members }
    ensures near { OnOk result (HasNear tags.now.bound object tag_type chosen.new.members) }
{
    for binding in tags.instances_of(object, tag_type) {
        add_bound(chosen, tags.objects_of(tag_type, binding.instance))?;
    }
    Ok(())
}

/// The type of a tag variable that two places share, if there is one.
fn shared(task: &TaskSets, first: &Place, second: &Place) -> Option<u32>
    ensures { IfSome result (Shares task.now first.now second.now) }
{
    for variable in first.binds.as_slice() {
        if second.binds.contains(variable) {
            return task.variables.get(*variable as usize).copied();
        }
    }
    None
}

impl<'a> Search<'a> {
    /// Puts the objects into a set that can stand at a place where an object stands at another, if the two places share a
    /// tag variable, and says whether they do.
    fn add_tied(
        &self,
        chosen: &mut IdSet,
        place: &Place,
        other: &Place,
        object: u32,
    ) -> Result<bool, AllocError>
        ensures kept { Keeps chosen.old.members chosen.new.members }
        ensures tied { IfOk result (λ r. r ≡ true → HasTied self.now.task self.now.bound place.now other.now object chosen.new.members) }
    {
        match shared(self.task, place, other) {
            None => Ok(false),
            Some(tag_type) => {
                add_near(self.tags, chosen, object, tag_type)?;
                Ok(true)
            }
        }
    }

    /// The same for the object that is to be named, if the other place has it in its set.
    fn add_tied_to_named(
        &self,
        chosen: &mut IdSet,
        place: &Place,
        other: &Place,
    ) -> Result<bool, AllocError>
        ensures kept { Keeps chosen.old.members chosen.new.members }
        ensures tied { IfOk result (λ r. r ≡ true → is_in other.now self.now.id ≡ true → HasTied self.now.task self.now.bound place.now other.now self.now.id chosen.new.members) }
    {
        if other.objects.contains(self.id) {
            self.add_tied(chosen, place, other, self.id)
        } else {
            Ok(true)
        }
    }

    /// Whether the next object has to be the one that is to be named.
    pub fn is_named_next(&self, front: Ids) -> bool
        requires { length front < length self.now.task.places }
        ensures { result ≡ true → Covers self.now front (self.now.id ∷ []) }
    {
        let behind = &self.task.places.as_slice()[front.len() + 1..];
        !front.as_slice().contains(&self.id) && !is_in_some(behind, self.id)
    }

    /// The objects that can come next, if an earlier place shares a tag variable with this one.
    fn tied_to_front(
        &self,
        alloc: Global,
        front: Ids,
        place: &Place,
    ) -> Result<Option<IdSet>, AllocError>
        requires place { slice_get self.now.task.places (length front) ≡ Some place.now }
        ensures { IfOk result (λ r. IfSome r (λ few. Covers self.now front few.members)) }
    {
        let places = self.task.places.as_slice();
        let objects = front.as_slice();
        for at in 0..objects.len() {
            let mut chosen = IdSet::new(alloc);
            if self.add_tied(&mut chosen, place, &places[at], objects[at])? {
                return Ok(Some(chosen));
            }
        }
        Ok(None)
    }

    /// The objects that can come next, if the object that is to be named is not in front and each later place where it can
    /// stand shares a tag variable with this one.
    fn tied_to_named(
        &self,
        alloc: Global,
        front: Ids,
        place: &Place,
    ) -> Result<Option<IdSet>, AllocError>
        requires place { slice_get self.now.task.places (length front) ≡ Some place.now }
        ensures { IfOk result (λ r. IfSome r (λ few. Covers self.now front few.members)) }
    {
        if front.as_slice().contains(&self.id) {
            return Ok(None);
        }
        let mut chosen = IdSet::new(alloc);
        add(&mut chosen, self.id)?;
        let places = self.task.places.as_slice();
        for at in front.len() + 1..places.len() {
            if !self.add_tied_to_named(&mut chosen, place, &places[at])? {
                return Ok(None);
            }
        }
        Ok(Some(chosen))
    }

    /// The objects that can come next, if there is a way to tell them without trying the whole set of the place.
    pub fn few_next(
        &self,
        alloc: Global,
        front: Ids,
        place: &Place,
    ) -> Result<Option<IdSet>, AllocError>
        requires place { slice_get self.now.task.places (length front) ≡ Some place.now }
        ensures { IfOk result (λ r. IfSome r (λ few. Covers self.now front few.members)) }
    {
        if let Some(few) = self.tied_to_front(alloc, front, place)? {
            return Ok(Some(few));
        }
        self.tied_to_named(alloc, front, place)
    }
}
