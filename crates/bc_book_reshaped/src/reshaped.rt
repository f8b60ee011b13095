// The objects that a commit reshapes.

ghost use Rattle.std.specs.Prelude.{◌≡◌, ◌+◌, ◌<◌, ◌≤◌, ◌++◌, ◌∷◌, [], if◌then◌else◌, length, map, option_copied, All, IfOk, OnOk};
ghost use Rattle.bc_book_reshaped.specs.Reshaped.{id_of, before_of, after_of, is_reshaped, written_reshaped, made_reshaped, reshaped_in};
ghost use Rattle.bc_book_reshaped.specs.declared.reshaped.Reshaped.TheVariants as object;

use crate::shape::same_shape;
use bc_data::run::{Body, Changes, Written};
use bc_store::store::Store;
use std::alloc::{AllocError, Global};

/// An object that a commit changes in kind, flags or tags, or makes: its number, and its place among the changes.
#[derive(Clone, Copy)]
pub enum Reshaped {
    Written { id: u32, at: usize },
    Made { id: u32, at: usize },
}

impl Reshaped {
    /// The object's number.
    pub fn id(self) -> u32
        ensures { result ≡ id_of self }
    {
        match self {
            Reshaped::Written { id, .. } => id,
            Reshaped::Made { id, .. } => id,
        }
    }
}

/// Whether the object's kind, flags or tags change. A change of cells alone is no concern of the sets.
fn is_reshaped(store: &Store, written: &Written) -> bool
    requires { written.now.id < length store.now.plain.bodies }
    ensures { result ≡ is_reshaped store.now.plain written.now }
{
    !same_shape(store.body(written.id), &written.body)
}

/// The reshaped objects, ascending: those of the store, then the new ones. On `Err` memory was wanting.
pub fn reshaped_of(
    alloc: Global,
    store: &Store,
    changes: &Changes,
) -> Result<Vec<Reshaped>, AllocError>
    requires there { All (λ w. w.id < length store.now.plain.bodies) changes.now.bodies }
    requires room { length store.now.plain.bodies + length changes.now.made ≤ 65536 }
    ensures { IfOk result (λ ms. ms.items ≡ reshaped_in store.now.plain changes.now) }
{
    let mut reshaped = Vec::new(alloc);
    add_written(&mut reshaped, store, changes.bodies.as_slice())?;
    add_made(&mut reshaped, store, changes.made.len())?;
    Ok(reshaped)
}

fn add_written(
    reshaped: &mut Vec<Reshaped>,
    store: &Store,
    bodies: &[Written],
) -> Result<(), AllocError>
    requires { All (λ w. w.id < length store.now.plain.bodies) bodies.now }
    ensures { OnOk result (reshaped.new.items ≡ reshaped.old.items ++ written_reshaped store.now.plain 0 bodies.now) }
{
    for (at, written) in bodies.iter().enumerate() {
        if is_reshaped(store, written) {
            reshaped.push(Reshaped::Written { id: written.id, at })?;
        }
    }
    Ok(())
}

fn add_made(reshaped: &mut Vec<Reshaped>, store: &Store, made: usize) -> Result<(), AllocError>
    requires { length store.now.plain.bodies + made ≤ 65536 }
    ensures { OnOk result (reshaped.new.items ≡ reshaped.old.items ++ made_reshaped (length store.now.plain.bodies) made) }
{
    for at in 0..made {
        let id = store.objects() + at as u32;
        reshaped.push(Reshaped::Made { id, at })?;
    }
    Ok(())
}

/// The numbers of these objects. On `Err` memory was wanting.
pub fn ids_of(alloc: Global, reshaped: &[Reshaped]) -> Result<Vec<u32>, AllocError>
    ensures { IfOk result (λ ids. ids.items ≡ map id_of reshaped.now) }
{
    reshaped.iter().map(|one| one.id()).collect(alloc)
}
