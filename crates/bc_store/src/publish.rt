// Changes are published in the store.

ghost use Rattle.std.specs.Prelude.{◌≡◌};
ghost use Rattle.bc_mean.specs.Changes.{apply_changes};
ghost use Rattle.bc_store.specs.Store.{CanPublish, HasSpare, UsesSpare};

use crate::store::Store;
use bc_data::run::Changes;

impl Store {
    /// Applies changes: each changed body takes the place of the one before, new objects and instances get the next
    /// numbers in order, and the text goes behind the output. There must be room and memory for them. It takes no
    /// memory.
    pub fn publish(&mut self, mut changes: Changes)
        requires publish { CanPublish self.old.plain changes }
        requires spare { HasSpare self.old.spare changes }
        ensures plain { self.new.plain ≡ apply_changes self.old.plain changes }
        ensures spare { UsesSpare self.old.spare self.new.spare changes }
    {
        self.resolve(&mut changes);
        self.put(changes);
    }
}
