// What the tests of lists make.

ghost use Rattle.std.specs.Prelude.{◌≡◌, [], ◌∷◌};

use bc_data::ids::Ids;
use bc_data::run::Invocation;

/// An invocation of a task on one object.
pub fn one(task: u32, object: u32) -> Invocation
    ensures { result ≡ record { task = task; objects = object ∷ []; tags = [] } }
{
    Invocation {
        task,
        objects: Ids::from_slice(&[object]),
        tags: Ids::none(),
    }
}
