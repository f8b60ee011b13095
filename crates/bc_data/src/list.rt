// A vector that contracts see as a list.

ghost use Rattle.std.specs.Prelude.{◌≡◌, ℕ, ◌+◌, ◌-◌, ◌^◌, ◌<◌, ◌≤◌, ◌==◌, [], ◌∷◌, ◌++◌, length, take, insert, remove, swap, swap_remove, slice_get, slice_set, slice_index_or, option_copied, option_to_list, IfOk, IfErr, IfSome, IsSome, ◌↔◌, OnOk, OnErr, if◌then◌else◌};
ghost use Rattle.std.specs.List.{AllZip, list_any};
ghost use Rattle.std.specs.Slice.Iter.{iter_rest, iter_steps};
ghost use Rattle.std.specs.Iterator.Runs.{EveryRun, ItemsAre, ItemsMapTo};
ghost use Rattle.std.specs.Vec.Iter.{into_iter_steps, into_iter_items, into_iter_len};
ghost use Rattle.std.specs.declared.alloc.Global.{Global as Heap};
ghost use Rattle.std.specs.Borrow.{Lends, sem};
ghost use Rattle.bc_data.specs.contracts.list.List.{the_row};

use std::alloc::{AllocError, AllocFailed, Global};
use std::marker::Model;
use std::ops::{Index, IndexMut};
use std::slice::Iter;
use std::vec::IntoIter;

/// A growable list. It has the calls of `Vec` under their names, and contracts see it as its elements.
#[derive(Debug, Drop)]
pub struct List<T> {
    items: Vec<T>,
}

/// A text or a file's content.
pub type Bytes = List<u8>;

impl<T> Model for List<T> {
    ghost use Rattle.std.specs.Prelude.{List as Sequence};
    ghost use Rattle.std.specs.Coded.{coded_list};

    ghost Value = { Sequence T };

    ghost coded = { coded_list T.code };

    ghost view = { λ l. l.items.items };
}

impl<T> List<T> {
    /// The empty list, which allocates nothing until it grows.
    pub fn new(alloc: Global) -> Self
        ensures { result ≡ [] }
    {
        List {
            items: Vec::new(alloc),
        }
    }

    /// The empty list with room for this many elements.
    pub fn with_capacity(alloc: Global, capacity: usize) -> Result<Self, AllocError>
        ensures { IfOk result (λ l. l ≡ []) }
    {
        Ok(List {
            items: Vec::with_capacity(alloc, capacity)?,
        })
    }

    /// The elements of a vector, which takes no memory.
    pub fn from_vec(items: Vec<T>) -> Self
        ensures { result ≡ items.items }
    {
        List { items }
    }

    /// The vector of the elements, which takes no memory.
    pub fn into_vec(self) -> Vec<T>
        ensures { result.items ≡ self }
    {
        let List { items } = self;
        items
    }

    /// How many elements there are.
    pub fn len(&self) -> usize
        ensures { result ≡ length self.now }
    {
        self.items.len()
    }

    /// Whether there is no element.
    pub fn is_empty(&self) -> bool
        ensures { result ≡ (length self.now == 0) }
    {
        self.items.is_empty()
    }

    /// The elements as a slice.
    pub fn as_slice(&self) -> &[T]
        ensures { result.now ≡ self.now }
    {
        self.items.as_slice()
    }

    /// The element at a place, if there is one.
    pub fn get(&self, index: usize) -> Option<&T>
        ensures { option_copied result ≡ slice_get self.now index }
    {
        self.items.as_slice().get(index)
    }

    /// Appends an element. On `Err` the list is as it was.
    pub fn push(&mut self, value: T) -> Result<(), AllocFailed<T>>
        ensures ok { OnOk result (self.new ≡ self.old ++ value ∷ []) }
        ensures err { OnErr result (self.new ≡ self.old) }
        ensures value_returned { IfErr result (λ failed. failed.value ≡ value) }
    {
        self.items.push(value)
    }

    /// Takes the last element off, if there is one.
    pub fn pop(&mut self) -> Option<T>
        ensures items { self.old ≡ self.new ++ option_to_list result }
        ensures variant { IsSome result ↔ (0 < length self.old) }
    {
        self.items.pop()
    }

    /// Takes the element at a place out; those behind it move up.
    pub fn remove(&mut self, index: usize) -> T
        requires { index < length self.old }
        ensures value { result ≡ slice_index_or self.old index result }
        ensures rest { self.new ≡ remove self.old index }
    {
        self.items.remove(index)
    }

    /// The first element, if there is one.
    pub fn first(&self) -> Option<&T>
        ensures { option_copied result ≡ slice_get self.now 0 }
    {
        self.items.as_slice().first()
    }

    /// The last element, if there is one.
    pub fn last(&self) -> Option<&T>
        ensures { option_copied result ≡ slice_get self.now (length self.now - 1) }
    {
        self.items.as_slice().last()
    }

    /// The elements, in order.
    pub fn iter(&self) -> Iter<'_, T>
        ensures rest { iter_rest result ≡ self.now }
        ensures runs { EveryRun (iter_steps {A = T}) (λ p. ItemsMapTo p (λ x. x.now) (iter_rest p.from)) }
    {
        self.items.as_slice().iter()
    }

    /// Whether an element equals this one.
    pub fn contains(&self, value: &T) -> bool
    where
        T: PartialEq,
        ensures { result ≡ list_any (λ x. T.eq x value.now) self.now }
    {
        self.items.as_slice().contains(value)
    }

    /// Puts an element at a place; those from there on move down. On `Err` the list is as it was.
    pub fn insert(&mut self, index: usize, value: T) -> Result<(), AllocFailed<T>>
        requires { index ≤ length self.old }
        ensures ok { OnOk result (self.new ≡ insert self.old index value) }
        ensures err { OnErr result (self.new ≡ self.old) }
        ensures value_returned { IfErr result (λ failed. failed.value ≡ value) }
    {
        self.items.insert(index, value)
    }

    /// Takes the element at a place out and puts the last in its place.
    pub fn swap_remove(&mut self, index: usize) -> T
        requires { index < length self.old }
        ensures value { result ≡ slice_index_or self.old index result }
        ensures rest { self.new ≡ swap_remove self.old index result }
    {
        self.items.swap_remove(index)
    }

    /// Exchanges the elements at two places.
    pub fn swap(&mut self, first: usize, second: usize)
        requires first_in_bounds { first < length self.old }
        requires second_in_bounds { second < length self.old }
        ensures { self.new ≡ swap self.old first second }
    {
        self.items.swap(first, second);
    }

    /// Keeps only this many of the first elements.
    pub fn truncate(&mut self, len: usize)
    where
        T: Drop,
        ensures { self.new ≡ take len self.old }
    {
        self.items.truncate(len);
    }

    /// Takes every element out.
    pub fn clear(&mut self)
    where
        T: Drop,
        ensures { self.new ≡ [] }
    {
        self.items.clear();
    }

    /// Moves the elements of another list to the end of this one. On `Err` both are as they were.
    pub fn append(&mut self, other: &mut List<T>) -> Result<(), AllocError>
        ensures ok { OnOk result ((self.new ≡ self.old ++ other.old) × (other.new ≡ [])) }
        ensures err { OnErr result ((self.new ≡ self.old) × (other.new ≡ other.old)) }
    {
        self.items.append(&mut other.items)
    }

    /// Makes room for this many more elements. The elements are as they were.
    pub fn reserve(&mut self, additional: usize) -> Result<(), AllocError>
        ensures { self.new ≡ self.old }
    {
        self.items.reserve(additional)
    }
}

impl<T: Copy> List<T> {
    /// A list with the elements of a slice.
    pub fn from_slice(alloc: Global, items: &[T]) -> Result<Self, AllocError>
        ensures { IfOk result (λ l. l ≡ items.now) }
    {
        Ok(List {
            items: Vec::from_slice(alloc, items)?,
        })
    }

    /// Appends the elements of a slice. On `Err` the list is as it was.
    pub fn extend_from_slice(&mut self, other: &[T]) -> Result<(), AllocError>
        ensures ok { OnOk result (self.new ≡ self.old ++ other.now) }
        ensures err { OnErr result (self.new ≡ self.old) }
    {
        self.items.extend_from_slice(other)
    }
}

impl<T: Clone> List<T> {
    /// A list equal to this one, where a clone of an element equals it, as for numbers and for texts.
    pub fn copy(&self, alloc: Global) -> Result<Self, AllocError>
        requires { (x y : T) → T.is_clone x y → y ≡ x }
        ensures { IfOk result (λ l. l ≡ self.now) }
    {
        Ok(List {
            items: Vec::from_clones(alloc, self.items.as_slice())?,
        })
    }
}

impl<T: Clone> Clone for List<T> {
    ghost is_clone = { AllZip T.is_clone };

    fn clone(&self) -> Result<Self, AllocError> {
        Ok(List {
            items: self.items.clone()?,
        })
    }
}

impl<T> Index<usize> for List<T> {
    type Output = T;

    ghost can_index = { λ l i. i < length l };

    ghost index_gives = { λ l i x. x ≡ slice_index_or l i x };

    fn index(&self, index: usize) -> &T
        requires { index < length self.now }
        ensures { result.now ≡ slice_index_or self.now index result.now }
    {
        &self.items.as_slice()[index]
    }
}

impl<T> IndexMut<usize> for List<T> {
    fn index_mut(&mut self, index: usize) -> &mut T
        requires { index < length self.old }
        ensures* writes_back { sem 𝓛 (Lends (the_row T.row) T.row self.entry result (slice_set self.old index)) }
        ensures value { result.now ≡ slice_index_or self.old index result.now }
    {
        &mut self.items[index]
    }
}

impl<T: Drop> IntoIterator for List<T> {
    type Item = T;

    type IntoIter = IntoIter<T, Global>;

    ghost into_iter_gives = { λ l r. (into_iter_items r ≡ l) × (into_iter_len r ≡ length l) × (into_iter_len r < 2 ^ 64) × EveryRun (into_iter_steps {X = T} {Z = Heap}) (λ p. ItemsAre p (into_iter_items p.from)) };

    fn into_iter(self) -> IntoIter<T, Global> {
        self.into_vec().into_iter()
    }
}

impl<'a, T> IntoIterator for &'a List<T> {
    type Item = &'a T;

    type IntoIter = Iter<'a, T>;

    ghost into_iter_gives = { λ l r. (iter_rest r ≡ l.now) × (length (iter_rest r) < 2 ^ 64) × EveryRun (iter_steps {A = T}) (λ p. ItemsMapTo p (λ x. x.now) (iter_rest p.from)) };

    fn into_iter(self) -> Iter<'a, T> {
        self.items.as_slice().iter()
    }
}
