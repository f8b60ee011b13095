// The sought invocations of a task, object after object.

ghost use Rattle.std.specs.Prelude.{◌≡◌, ◌<◌, ◌≤◌, ◌&&◌, false, not, [], ◌∷◌, ◌++◌, Some, length, slice_get, OnOk};
ghost use Rattle.bc_params_sets.specs.Members.{has, IsRising};
ghost use Rattle.bc_params_sets.specs.Kept.{is_in};
ghost use Rattle.bc_params_search.specs.Tuples.{IsSmall, IsBound};
ghost use Rattle.bc_params_search.specs.Search.{Adds, Covers, NoneBegins, picked};

use crate::search::{Search, with};
use bc_data::ids::Ids;
use bc_data::list::List;
use bc_data::run::Invocation;
use bc_params_sets::place::Place;
use std::alloc::{AllocError, Global};

/// Whether an object is in the set of a place and not in front of it.
fn is_free(place: &Place, front: Ids, object: u32) -> bool
    ensures { result ≡ (is_in place.now object && not (has front object)) }
{
    place.objects.contains(object) && !front.as_slice().contains(&object)
}

impl<'a> Search<'a> {
    /// Whether an object may come next. If not, nothing that is sought goes on with it.
    fn may_stand(&self, place: &Place, front: Ids, object: u32) -> bool
        requires front { length front < 4 }
        requires place { slice_get self.now.task.places (length front) ≡ Some place.now }
        ensures { result ≡ false → NoneBegins self.now (front ++ object ∷ []) }
    {
        if !is_free(place, front, object) {
            return false;
        }
        let longer = with(front, object);
        self.can_bind_all(longer.as_slice(), place.binds.as_slice())
    }

    /// Appends the sought invocations whose objects begin with these, while more are wanted.
    #[cycle(objects)]
    pub fn add_objects(
        &self,
        alloc: Global,
        found: &mut List<Invocation>,
        front: Ids,
    ) -> Result<(), AllocError>
        requires small { IsSmall self.now.task }
        requires bound { IsBound self.now.task }
        requires front { length front ≤ length self.now.task.places }
        requires short { length found.old ≤ self.now.most }
        ensures short { length found.new ≤ self.now.most }
        ensures found { OnOk result (Adds self.now (picked self.now front []) found.old found.new) }
    {
        let Some(place) = self.task.places.get(front.len()) else {
            return self.add_instances(found, front, Ids::none());
        };
        if self.is_named_next(front) {
            return self.add_each(alloc, found, front, place, &[self.id]);
        }
        match self.few_next(alloc, front, place)? {
            Some(few) => self.add_each(alloc, found, front, place, few.as_slice()),
            None => self.add_each(alloc, found, front, place, place.objects.as_slice()),
        }
    }

    /// The same, where the next object is one of these candidates.
    #[cycle(objects)]
    fn add_each(
        &self,
        alloc: Global,
        found: &mut List<Invocation>,
        front: Ids,
        place: &Place,
        candidates: &[u32],
    ) -> Result<(), AllocError>
        requires small { IsSmall self.now.task }
        requires bound { IsBound self.now.task }
        requires front { length front < length self.now.task.places }
        requires place { slice_get self.now.task.places (length front) ≡ Some place.now }
        requires rising { IsRising candidates.now }
        requires covers { Covers self.now front candidates.now }
        requires short { length found.old ≤ self.now.most }
        ensures short { length found.new ≤ self.now.most }
        ensures found { OnOk result (Adds self.now (picked self.now front []) found.old found.new) }
    {
        for object in candidates {
            if found.len() >= self.most {
                return Ok(());
            }
            if !self.may_stand(place, front, *object) {
                continue;
            }
            self.add_objects(alloc, found, with(front, *object))?;
        }
        Ok(())
    }
}
