// Whether two bodies are the same but for their cells.

ghost use Rattle.std.specs.Prelude.{◌≡◌};
ghost use Rattle.bc_book_reshaped.specs.Reshaped.{same_shape};

use bc_data::run::Body;

/// Whether two bodies have the same kind, flags and tags.
pub fn same_shape(a: &Body, b: &Body) -> bool
    ensures { result ≡ same_shape a.now b.now }
{
    a.kind == b.kind && a.flags == b.flags && a.tags.as_slice() == b.tags.as_slice()
}
