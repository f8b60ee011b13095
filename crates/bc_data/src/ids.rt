// At most four numbers.

ghost use Rattle.std.specs.Prelude.{◌≡◌, ℕ, ◌+◌, ◌<◌, ◌≤◌, ◌==◌, [], ◌∷◌, ◌++◌, length, slice_get, option_copied};

use std::marker::Model;

/// At most four numbers of objects or tag instances, in order. Contracts see the list of them.
#[derive(Clone, Copy, Debug, PartialEq, Eq)]
pub struct Ids {
    ids: [u32; 4],
    len: usize,
}

impl Model for Ids {
    ghost use Rattle.std.specs.Prelude.{List, ℕ, length, take};
    ghost use Rattle.bc_data.specs.Ids.{IsPadded, padded};

    ghost Value = { List ℕ };

    ghost view = { λ a. take a.len a.ids };

    ghost invariant = { λ a. IsPadded a.ids a.len };

    ghost inverse = { λ l. record { ids = padded l; len = length l } };

    ghost use Rattle.bc_data.specs.Ids.{same_inside};

    ghost inverse_ok = { same_inside };
}

impl Ids {
    /// No numbers.
    pub fn none() -> Self
        ensures { result ≡ [] }
    {
        Ids {
            ids: [0; 4],
            len: 0,
        }
    }

    /// How many there are.
    pub fn len(&self) -> usize
        ensures value { result ≡ length self.now }
        ensures few { length self.now ≤ 4 }
    {
        self.len
    }

    /// Whether there is none.
    pub fn is_empty(&self) -> bool
        ensures { result ≡ (length self.now == 0) }
    {
        self.len == 0
    }

    /// The numbers as a slice.
    pub fn as_slice(&self) -> &[u32]
        ensures value { result.now ≡ self.now }
        ensures few { length self.now ≤ 4 }
    {
        &self.ids[..self.len]
    }

    /// The number at a place, if there is one.
    pub fn get(&self, index: usize) -> Option<u32>
        ensures { result ≡ slice_get self.now index }
    {
        if index < self.len {
            Some(self.ids[index])
        } else {
            None
        }
    }

    /// Appends a number. There must be room for it.
    pub fn push(&mut self, id: u32)
        requires { length self.old < 4 }
        ensures { self.new ≡ self.old ++ id ∷ [] }
    {
        self.ids[self.len] = id;
        self.len += 1;
    }

    /// The numbers of a slice, which are at most four.
    pub fn from_slice(ids: &[u32]) -> Self
        requires { length ids.now ≤ 4 }
        ensures { result ≡ ids.now }
    {
        let mut all = Ids::none();
        for id in ids {
            all.push(*id);
        }
        all
    }
}
