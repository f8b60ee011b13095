// The bodies that an invocation was given, against those of the store.

ghost use Rattle.std.specs.Prelude.{◌≡◌, Some, slice_get};
ghost use Rattle.bc_mean.specs.Changes.{same_body};
ghost use Rattle.bc_book_events.specs.Events.{is_moved};
ghost use Rattle.bc_law_core.specs.Areas.{moved_in};

use bc_data::run::Body;
use bc_step::area::Area;
use bc_store::store::Store;

/// Whether two bodies are the same.
fn same_body(a: &Body, b: &Body) -> bool
    ensures { result ≡ same_body a.now b.now }
{
    a.kind == b.kind
        && a.cells.as_slice() == b.cells.as_slice()
        && a.flags == b.flags
        && a.tags.as_slice() == b.tags.as_slice()
}

/// Whether the store has another body for the object, or none.
fn is_moved(store: &Store, id: u32, given: &Body) -> bool
    ensures { result ≡ is_moved (Some given.now) (slice_get store.now.plain.bodies id) }
{
    if id >= store.objects() {
        return true;
    }
    !same_body(given, store.body(id))
}

/// The first object that was given with a body that the store doesn't have.
pub(crate) fn first_moved(store: &Store, area: &Area) -> Option<u32>
    ensures { result ≡ moved_in store.now.plain area.now }
{
    for id in area.touched() {
        if is_moved(store, *id, area.given(*id)) {
            return Some(*id);
        }
    }
    None
}
