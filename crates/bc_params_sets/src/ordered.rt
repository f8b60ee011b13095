// Bindings in one of two orders, each once.

ghost use Rattle.std.specs.Prelude.{◌≡◌, ◌+◌, ◌≤◌, ◌<◌, ◌-◌, ◌&&◌, ◌||◌, not, true, false, length, map, vec_len, vec_capacity};
ghost use Rattle.std.specs.List.Sorted.{IsPartitionPoint};
ghost use Rattle.bc_params_sets.specs.Members.{IsRising};
ghost use Rattle.bc_params_sets.specs.Bindings.{same_binding, is_bound};
ghost use Rattle.bc_params_sets.specs.Orders.{key_of, is_less, precedes, InOrder, is_in_run, is_before_run, is_within_run, IsFind, Starts, Ends};
ghost use Rattle.bc_params_sets.specs.declared.tag_index.Binding.{Binding};

use crate::tag_index::Binding;

/// By which number bindings are ordered first; then by type, then by the other number.
#[derive(Clone, Copy)]
pub enum Order {
    ByObject,
    ByInstance,
}

/// The numbers of a binding, in the turn in which an order asks them.
#[derive(Clone, Copy)]
pub struct Key {
    pub first: u32,
    pub second: u32,
    pub third: u32,
}

impl Key {
    fn is_less(self, other: Key) -> bool
        ensures { result ≡ is_less self other }
    {
        self.first < other.first
            || (self.first == other.first
                && (self.second < other.second
                    || (self.second == other.second && self.third < other.third)))
    }
}

impl Order {
    fn key_of(self, binding: Binding) -> Key
        ensures { result ≡ key_of self binding }
    {
        match self {
            Order::ByObject => Key {
                first: binding.object,
                second: binding.tag_type,
                third: binding.instance,
            },
            Order::ByInstance => Key {
                first: binding.instance,
                second: binding.tag_type,
                third: binding.object,
            },
        }
    }

    fn precedes(self, binding: Binding, other: Binding) -> bool
        ensures { result ≡ precedes self binding other }
    {
        self.key_of(binding).is_less(self.key_of(other))
    }

    fn is_before_run(self, first: u32, second: u32, binding: Binding) -> bool
        ensures { result ≡ is_before_run self first second binding }
    {
        let key = self.key_of(binding);
        key.first < first || (key.first == first && key.second < second)
    }

    fn is_within_run(self, first: u32, second: u32, binding: Binding) -> bool
        ensures { result ≡ is_within_run self first second binding }
    {
        let key = self.key_of(binding);
        key.first < first || (key.first == first && key.second <= second)
    }
}

/// How many stand before a binding.
fn place_of(items: &[Binding], order: Order, binding: Binding) -> usize
    requires { InOrder order items.now }
    ensures within { result ≤ length items.now }
    ensures point { IsPartitionPoint (λ b. precedes order b binding ≡ true) (λ b. precedes order b binding ≡ false) items.now result }
{
    items.partition_point(|other| order.precedes(*other, binding))
}

/// The place of a binding, or where it would stand.
pub fn find(items: &[Binding], order: Order, binding: Binding) -> Result<usize, usize>
    requires { InOrder order items.now }
    ensures { IsFind order items.now binding result }
{
    let place = place_of(items, order, binding);
    if place == items.len() {
        return Err(place);
    }
    if items[place] == binding {
        Ok(place)
    } else {
        Err(place)
    }
}

/// Puts a binding in, if it isn't there, without taking memory.
pub fn put(items: &mut Vec<Binding>, order: Order, binding: Binding)
    requires order { InOrder order items.old.items }
    requires room { vec_len items.old < vec_capacity items.old }
    ensures order { InOrder order items.new.items }
    ensures members { (c : Binding) → is_bound items.new.items c ≡ (is_bound items.old.items c || same_binding binding c) }
    ensures spare { vec_capacity items.old - vec_len items.old ≤ vec_capacity items.new - vec_len items.new + 1 }
{
    if let Err(place) = find(items.as_slice(), order, binding) {
        let _ = items.insert(place, binding);
    }
}

/// Takes a binding out, if it is there.
pub fn take_out(items: &mut Vec<Binding>, order: Order, binding: Binding)
    requires { InOrder order items.old.items }
    ensures order { InOrder order items.new.items }
    ensures members { (c : Binding) → is_bound items.new.items c ≡ (is_bound items.old.items c && not (same_binding binding c)) }
    ensures spare { vec_capacity items.old - vec_len items.old ≤ vec_capacity items.new - vec_len items.new }
{
    if let Ok(place) = find(items.as_slice(), order, binding) {
        items.remove(place);
    }
}

/// How many stand before a run.
fn start_of(items: &[Binding], order: Order, first: u32, second: u32) -> usize
    requires { InOrder order items.now }
    ensures within { result ≤ length items.now }
    ensures point { Starts order first second items.now result }
{
    items.partition_point(|b| order.is_before_run(first, second, *b))
}

/// How many stand before a run or in it.
fn end_of(items: &[Binding], order: Order, first: u32, second: u32) -> usize
    requires { InOrder order items.now }
    ensures within { result ≤ length items.now }
    ensures point { Ends order first second items.now result }
{
    items.partition_point(|b| order.is_within_run(first, second, *b))
}

/// The bindings with these two numbers, by the third.
pub fn run(items: &[Binding], order: Order, first: u32, second: u32) -> &[Binding]
    requires { InOrder order items.now }
    ensures members { (c : Binding) → is_bound result.now c ≡ (is_bound items.now c && is_in_run order first second c) }
    ensures rising { IsRising (map (λ b. (key_of order b).third) result.now) }
{
    let from = start_of(items, order, first, second);
    let to = end_of(items, order, first, second);
    prove!(from <= to);
    &items[from..to]
}
