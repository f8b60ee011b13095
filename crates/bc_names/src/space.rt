// One space of names.

ghost use Rattle.std.specs.Prelude.{◌≡◌, ◌<◌, ◌≤◌, [], ◌∷◌, ◌++◌, length, None, OnOk};
ghost use Rattle.bc_types_rules.specs.Numbering.{declare, number_of};
ghost use Rattle.bc_names.specs.Answers.{Answers};

use crate::fault::{TypeFault, TypeKind};
use bc_data::tree::Named;
use indexmap::IndexSet;
use std::alloc::{AllocError, Global};
use std::marker::Model;

/// At most 256 names. Contracts see the list of them, in the order of their declarations.
#[derive(Drop)]
pub struct Space {
    names: IndexSet<Vec<u8>>,
}

impl Model for Space {
    ghost use Rattle.std.specs.Prelude.{◌≤◌, ℕ, List, length};
    ghost use Rattle.bc_names.specs.Space.{names_of};

    ghost Value = { List (List ℕ) };

    ghost view = { λ s. names_of s.names.keys };

    ghost invariant = { λ s. length s.names.keys ≤ 256 };
}

impl Space {
    /// The space without names.
    pub fn new(alloc: Global) -> Self
        ensures { result ≡ [] }
    {
        Space {
            names: IndexSet::new(alloc),
        }
    }

    /// The number of a name, if the space has it.
    #[tactic(auto, using(crate::proofs::Spaces::number_is_index))]
    pub fn number(&self, name: &[u8]) -> Option<u32>
        ensures { result ≡ number_of self.now name.now }
    {
        let index = self.names.get_index_of(name)?;
        Some(index as u32)
    }

    /// How many names there are.
    pub fn len(&self) -> usize
        ensures { result ≡ length self.now }
    {
        self.names.len()
    }

    /// Appends a name that the space hasn't yet.
    pub fn add(&mut self, alloc: Global, name: &[u8]) -> Result<(), AllocError>
        requires new { number_of self.old name.now ≡ None }
        requires room { length self.old < 256 }
        ensures { OnOk result (self.new ≡ self.old ++ name.now ∷ []) }
    {
        let name = Vec::from_slice(alloc, name)?;
        self.names.insert(name)?;
        Ok(())
    }

    /// Declares a name, where the space may have so many.
    pub fn declare(&mut self, alloc: Global, most: usize, x: &Named) -> Result<(), TypeFault>
        requires { most ≤ 256 }
        ensures { Answers result (λ _. self.new) (declare most self.old x.now) }
    {
        if self.number(x.name.as_slice()).is_some() {
            return Err(TypeFault::Refused {
                kind: TypeKind::Twice,
                at: x.at,
            });
        }
        if self.len() >= most {
            return Err(TypeFault::Refused {
                kind: TypeKind::TooMany,
                at: x.at,
            });
        }
        self.add(alloc, x.name.as_slice())?;
        Ok(())
    }
}
