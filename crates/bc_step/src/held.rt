// The objects that were given.

ghost use Rattle.std.specs.Prelude.{◌≡◌, ◌≤◌, ◌+◌, true, false, [], ◌∷◌, ◌++◌, length, map, option_to_list, slice_get, vec_len, vec_capacity, IfOk, OnOk, OnErr};
ghost use Rattle.std.specs.Option.{option_map};
ghost use Rattle.std.specs.List.{filter_map, range_with_len};
ghost use Rattle.indexmap.specs.IndexSet.{spare};
ghost use Rattle.bc_data.specs.declared.run.Body.{Body};
ghost use Rattle.bc_mean.specs.Enabled.{are_different};
ghost use Rattle.bc_mean.specs.Changes.{written_of};
ghost use Rattle.bc_mean.specs.Work.{Work};
ghost use Rattle.bc_mean.specs.declared.plain.Plain.{Plain};
ghost use Rattle.bc_code.specs.Given.{given_look, ids_of};
ghost use Rattle.bc_step.specs.Area.{AgreesWith, FitsMask, copies_of, edited, given_of, with_id};
ghost use Rattle.bc_step.specs.declared.held.Given.{Given};
ghost use Rattle.bc_step.specs.Held.{HoldsNow, held_body, is_given, latest, look_in, unwritten, write_in, written_at, written_one};

use crate::body::{Edit, apply, same_body};
use bc_data::list::List;
use bc_data::run::{Body, Written};
use indexmap::IndexSet;
use std::alloc::{AllocError, Global};
use std::marker::Model;

/// The body of an object that was given, and its private copy from the first write on.
#[derive(Drop)]
pub struct Given {
    body: Body,
    copy: Option<Body>,
}

/// The objects that were given, in order, each once.
#[derive(Drop)]
pub struct Holdings {
    ids: IndexSet<u32>,
    given: Vec<Given>,
}

impl Model for Holdings {
    ghost use Rattle.std.specs.Prelude.{◌≡◌, ◌-◌, true, length, min, vec_len, vec_capacity};
    ghost use Rattle.indexmap.specs.IndexSet.{spare};
    ghost use Rattle.bc_mean.specs.Enabled.{are_different};
    ghost use Rattle.bc_step.specs.Held.{HeldParts, held_of};

    ghost Value = { HeldParts };

    ghost view = { λ h. record {
      held = held_of h.ids.keys h.given.items;
      spare = min (spare h.ids) (vec_capacity h.given - vec_len h.given);
    } };

    ghost invariant = { λ h. (length h.ids.keys ≡ length h.given.items) × (are_different h.ids.keys ≡ true) };
}

impl Given {
    /// The private copy, or the body where there is none yet.
    #[inline]
    fn latest(&self) -> &Body
        ensures { result.now ≡ latest self.now.copy self.now.body }
    {
        match &self.copy {
            Some(copy) => copy,
            None => &self.body,
        }
    }

    /// Writes into the private copy, which the first write makes. After want of memory nothing changed.
    fn edit(&mut self, alloc: Global, edit: Edit) -> Result<(), AllocError>
        requires { FitsMask edit }
        ensures ok { OnOk result (self.new
            ≡ record self.old { copy = Some (edited edit (latest self.old.copy self.old.body)) }) }
        ensures err { OnErr result (self.new ≡ self.old) }
    {
        match &mut self.copy {
            Some(copy) => apply(copy, edit),
            None => {
                let mut copy = self.body.copy(alloc)?;
                apply(&mut copy, edit)?;
                self.copy = Some(copy);
                Ok(())
            }
        }
    }

    /// The private copy, where it differs from the body.
    fn written(&self, alloc: Global, id: u32) -> Result<Option<Written>, AllocError>
        ensures { IfOk result (λ o. o ≡ written_one id self.now) }
    {
        let Some(copy) = &self.copy else {
            return Ok(None);
        };
        if same_body(&self.body, copy) {
            return Ok(None);
        }
        let body = copy.copy(alloc)?;
        Ok(Some(Written { id, body }))
    }
}

/// Inserts different numbers into an empty set, in their order.
fn insert_all(ids: &mut IndexSet<u32>, objects: &[u32]) -> Result<(), AllocError>
    requires empty { ids.old.keys ≡ [] }
    requires different { are_different objects.now ≡ true }
    ensures ok { OnOk result (ids.new.keys ≡ objects.now) }
    ensures room { spare ids.old ≤ length ids.new.keys + spare ids.new }
{
    for id in objects {
        ids.insert(*id)?;
    }
    Ok(())
}

/// Appends bodies before their first writes.
fn push_unwritten(given: &mut Vec<Given>, bodies: List<Body>) -> Result<(), AllocError>
    ensures ok { OnOk result (given.new.items ≡ given.old.items ++ map unwritten bodies) }
    ensures capacity { vec_capacity given.old ≤ vec_capacity given.new }
{
    given.extend(bodies.into_iter().map(|body| Given { body, copy: None }))
}

/// Puts these objects with these bodies in the place of all.
fn fill(
    ids: &mut IndexSet<u32>,
    given: &mut Vec<Given>,
    objects: &[u32],
    bodies: List<Body>,
) -> Result<(), AllocError>
    requires { are_different objects.now ≡ true }
    ensures ids { OnOk result (ids.new.keys ≡ objects.now) }
    ensures given { OnOk result (given.new.items ≡ map unwritten bodies) }
    ensures room { length ids.old.keys + spare ids.old ≤ length ids.new.keys + spare ids.new }
    ensures capacity { vec_capacity given.old ≤ vec_capacity given.new }
{
    ids.clear();
    given.clear();
    insert_all(ids, objects)?;
    push_unwritten(given, bodies)
}

/// The one of this number, if it was given.
#[inline]
fn look_in<'a>(ids: &IndexSet<u32>, given: &'a Vec<Given>, id: u32) -> Option<&'a Given>
    requires { length ids.now.keys ≡ length given.now.items }
    ensures { option_map (λ g. g.now) result ≡ look_in ids.now.keys given.now.items id }
{
    let i = ids.get_index_of(&id)?;
    Some(&given[i])
}

/// Writes into the private copy of the one of this number.
fn edit_in(
    alloc: Global,
    ids: &IndexSet<u32>,
    given: &mut Vec<Given>,
    id: u32,
    edit: Edit,
) -> Result<(), AllocError>
    requires len { length ids.now.keys ≡ length given.old.items }
    requires there { (g : Given) × (look_in ids.now.keys given.old.items id ≡ Some g) }
    requires fits { FitsMask edit }
    ensures ok { OnOk result ((g : Given)
        → look_in ids.now.keys given.old.items id ≡ Some g
        → given.new.items ≡ write_in ids.now.keys given.old.items id (edited edit (latest g.copy g.body))) }
    ensures len { vec_len given.new ≡ vec_len given.old }
    ensures capacity { vec_capacity given.new ≡ vec_capacity given.old }
    ensures err { OnErr result (given.new.items ≡ given.old.items) }
{
    match ids.get_index_of(&id) {
        Some(i) => given[i].edit(alloc, edit),
        None => unreachable!(),
    }
}

/// Appends one where there is room.
fn push_in(given: &mut Vec<Given>, one: Given)
    requires { vec_len given.old + 1 ≤ vec_capacity given.old }
    ensures items { given.new.items ≡ given.old.items ++ one ∷ [] }
    ensures len { vec_len given.new ≡ vec_len given.old + 1 }
    ensures capacity { vec_capacity given.old ≤ vec_capacity given.new }
{
    let _ = given.push(one);
}

fn add(all: &mut List<Written>, one: Option<Written>) -> Result<(), AllocError>
    ensures { OnOk result (all.new ≡ all.old ++ option_to_list one) }
{
    if let Some(one) = one {
        all.push(one)?;
    }
    Ok(())
}

/// What was written of the one of this number.
fn written_at(
    alloc: Global,
    ids: &IndexSet<u32>,
    given: &Vec<Given>,
    id: u32,
) -> Result<Option<Written>, AllocError>
    requires { length ids.now.keys ≡ length given.now.items }
    ensures { IfOk result (λ o. o ≡ written_at ids.now.keys given.now.items id) }
{
    match look_in(ids, given, id) {
        Some(one) => one.written(alloc, id),
        None => Ok(None),
    }
}

/// What was written of those of these numbers.
fn written_of(
    alloc: Global,
    ids: &IndexSet<u32>,
    given: &Vec<Given>,
    numbers: &[u32],
) -> Result<List<Written>, AllocError>
    requires { length ids.now.keys ≡ length given.now.items }
    ensures { IfOk result (λ l. l ≡ filter_map (written_at ids.now.keys given.now.items) numbers.now) }
{
    let mut all = List::new(alloc);
    for id in numbers {
        let one = written_at(alloc, ids, given, *id)?;
        add(&mut all, one)?;
    }
    Ok(all)
}

impl Holdings {
    /// None. It takes no memory.
    pub fn new(alloc: Global) -> Self
        ensures { result.held ≡ [] }
    {
        Holdings {
            ids: IndexSet::new(alloc),
            given: Vec::new(alloc),
        }
    }

    /// Puts these objects with these bodies in the place of all, in the memory that there is. On `Err` there are none.
    pub fn refill(&mut self, objects: &[u32], bodies: List<Body>) -> Result<(), AllocError>
        requires different { are_different objects.now ≡ true }
        requires each { length bodies ≡ length objects.now }
        ensures ok { OnOk result (self.new.held ≡ with_id objects.now bodies) }
        ensures err { OnErr result (self.new.held ≡ []) }
        ensures room { length self.old.held + self.old.spare ≤ length self.new.held + self.new.spare }
    {
        match fill(&mut self.ids, &mut self.given, objects, bodies) {
            Ok(()) => Ok(()),
            Err(error) => {
                self.ids.clear();
                self.given.clear();
                Err(error)
            }
        }
    }

    /// Whether the object was given.
    #[inline]
    pub fn has(&self, id: u32) -> bool
        ensures { result ≡ is_given id self.now.held }
    {
        self.ids.contains(&id)
    }

    /// Makes room for one more.
    pub fn reserve(&mut self) -> Result<(), AllocError>
        ensures room { OnOk result (1 ≤ self.new.spare) }
        ensures held { self.new.held ≡ self.old.held }
        ensures spare { self.old.spare ≤ self.new.spare }
    {
        self.ids.reserve(1)?;
        self.given.reserve(1)
    }

    /// Appends an object. There must be room for it. It takes no memory.
    pub fn give(&mut self, id: u32, body: Body)
        requires new { is_given id self.old.held ≡ false }
        requires room { 1 ≤ self.old.spare }
        ensures held { self.new.held ≡ self.old.held ++ record { id = id; body = body; copy = None } ∷ [] }
        ensures spare { self.old.spare ≤ self.new.spare + 1 }
    {
        let _ = self.ids.insert(id);
        push_in(&mut self.given, Given { body, copy: None });
    }

    /// The numbers of the objects, in order.
    pub fn ids(&self) -> &[u32]
        ensures { result.now ≡ ids_of (given_of self.now.held) }
    {
        self.ids.as_slice()
    }

    /// The body that was given.
    pub fn given(&self, id: u32) -> Option<&Body>
        ensures { option_map (λ b. b.now) result ≡ given_look (given_of self.now.held) id }
    {
        let one = look_in(&self.ids, &self.given, id)?;
        Some(&one.body)
    }

    /// The body as the invocation sees it.
    #[inline]
    pub fn body(&self, id: u32) -> Option<&Body>
        ensures { option_map (λ b. b.now) result ≡ held_body self.now.held id }
    {
        let one = look_in(&self.ids, &self.given, id)?;
        Some(one.latest())
    }

    /// Writes into the private copy of an object. After want of memory nothing changed.
    pub fn edit(&mut self, alloc: Global, id: u32, edit: Edit) -> Result<(), AllocError>
        requires there { (b : Body) × (held_body self.old.held id ≡ Some b) }
        requires fits { FitsMask edit }
        ensures ok { OnOk result ((b : Body)
            → held_body self.old.held id ≡ Some b → HoldsNow self.old self.new id (edited edit b)) }
        ensures err { OnErr result (self.new ≡ self.old) }
    {
        edit_in(alloc, &self.ids, &mut self.given, id, edit)
    }

    /// Takes all of them out.
    pub fn clear(&mut self)
        ensures held { self.new.held ≡ [] }
        ensures room { length self.old.held + self.old.spare ≤ self.new.spare }
    {
        self.ids.clear();
        self.given.clear();
    }

    /// The objects whose bodies now differ, ascending, with their new bodies.
    pub fn written(&self, alloc: Global) -> Result<List<Written>, AllocError>
        ensures { IfOk result (λ l. (S : Plain) (w : Work)
            → AgreesWith S (given_of self.now.held)
            → w.changed ≡ copies_of self.now.held
            → l ≡ filter_map (λ id. written_of w id (slice_get S.bodies id)) (range_with_len 0 (length S.bodies))) }
    {
        let mut numbers = Vec::from_slice(alloc, self.ids.as_slice())?;
        numbers.sort()?;
        written_of(alloc, &self.ids, &self.given, numbers.as_slice())
    }
}
