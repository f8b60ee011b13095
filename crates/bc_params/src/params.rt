// The parameter sets of a store.

ghost use Rattle.std.specs.Prelude.{◌≡◌, ℕ, ◌+◌, ◌<◌, ◌≤◌, ◌++◌, List as Sequence, length, take, filter, option_copied, Option, None, IfOk, OnOk};
ghost use Rattle.bc_data.specs.Typed.{TypedProgram};
ghost use Rattle.bc_data.specs.WellTyped.{IsWellTyped};
ghost use Rattle.bc_data.specs.declared.run.Body.{Body};
ghost use Rattle.bc_mean.specs.declared.plain.Plain.{Plain};
ghost use Rattle.bc_mean.specs.Enabled.{all_enabled};
ghost use Rattle.bc_mean.specs.Work.{look_of};
ghost use Rattle.bc_params_sets.specs.Kept.{AreSets};
ghost use Rattle.bc_params_search.specs.Tuples.{names};
ghost use Rattle.bc_params.specs.Look.{nobody, put_look, HaveOneKind, class_of_either, tags_in};
ghost use Rattle.bc_params.specs.Places.{places_of, AllRise, HasSpare, KeepsSpare, KeepsSets};

use crate::bindings::{bind, tags_in, unbind};
use crate::empty::empty_tasks;
use crate::places::{update_of, update_tasks};
use crate::room::{bindings_for, reserve_tasks, updates_for};
use bc_data::list::List;
use bc_data::program::Program;
use bc_data::run::{Body, Changes, Invocation};
use bc_params_search::tuples_with;
use bc_params_sets::place::TaskSets;
use bc_params_sets::tag_index::TagIndex;
use bc_steps::Steps;
use bc_store::store::Store;
use std::alloc::{AllocError, Global};
use std::marker::{Brand, Model};
use std::sync::ledger::{Blank, Ledger};

/// At each place of a task the objects that fit, and the tag instances that objects carry. The memory for updates is
/// reserved before they are made.
#[derive(Drop)]
pub struct Params {
    tasks: Vec<TaskSets>,
    tags: TagIndex,
    /// For how many updates there is room in each set.
    room: usize,
}

impl Model for Params {
    ghost use Rattle.std.specs.Coded.{codes};
    ghost use Rattle.bc_flags.specs.contracts.guard.Form as tests;
    ghost use Rattle.bc_params.specs.Places.{ParamParts, HaveRoom, AllRise, IsSearchable};

    ghost Value = { ParamParts };

    ghost coded = { Prim.hlevel (codes, tests.the_row.coded) };

    ghost view = { λ p. record {
      kept = record { tasks = p.tasks.items; bound = p.tags.bound };
      spare = record { updates = p.room; bindings = p.tags.spare };
    } };

    ghost invariant = { λ p. HaveRoom p.room p.tasks.items × AllRise p.tasks.items × IsSearchable p.tasks.items };
}

impl Params {
    /// The sets of a store.
    pub fn make(alloc: Global, program: &Program, store: &Store) -> Result<Self, AllocError>
        ensures { IfOk result (λ p. AreSets program.now (look_of store.now.plain) store.now.plain.tags p.kept) }
    {
        let mut params = Params::empty(alloc, program)?;
        params.fill::<Brand>(store, Blank::new(1))?;
        Ok(params)
    }

    /// The sets of a program where no object is.
    fn empty(alloc: Global, program: &Program) -> Result<Self, AllocError>
        ensures { IfOk result (λ p. (types : Sequence ℕ) → AreSets program.now nobody types p.kept) }
    {
        program.is_well_typed();
        Ok(Params {
            tasks: empty_tasks(alloc, program.tasks())?,
            tags: TagIndex::new(alloc),
            room: 0,
        })
    }

    /// Brings the objects of a store into sets that have none. Nobody asks for the steps.
    fn fill<L: Ledger>(&mut self, store: &Store, blank: Blank) -> Result<(), AllocError>
        requires name { blank.name ≡ L.name }
        requires parts { blank.parts ≡ L.parts }
        requires some { 0 < L.parts }
        ensures { OnOk result ((P : TypedProgram) → AreSets P nobody store.now.plain.tags self.old.kept → AreSets P (look_of store.now.plain) store.now.plain.tags self.new.kept) }
    {
        let mut steps = Steps::<L>::new(blank);
        for id in 0..store.objects() {
            self.add(store, id, &mut steps)?;
        }
        Ok(())
    }

    /// Brings an object of a store in.
    fn add<L: Ledger>(
        &mut self,
        store: &Store,
        id: u32,
        steps: &mut Steps<L>,
    ) -> Result<(), AllocError>
        requires { id < length store.now.plain.bodies }
        ensures { OnOk result ((P : TypedProgram) (look : ℕ → Option Body) → look id ≡ None → AreSets P look store.now.plain.tags self.old.kept
            → AreSets P (put_look id (look_of store.now.plain id) look) store.now.plain.tags self.new.kept) }
    {
        let body = store.body(id);
        self.reserve(1, body.tags.len())?;
        self.update(store.tags(), &[], id, None, Some(body), steps);
        Ok(())
    }

    /// The places of each task, with their sets, which ascend.
    pub fn tasks(&self) -> &[TaskSets]
        ensures value { result.now ≡ self.now.kept.tasks }
        ensures rising { AllRise self.now.kept.tasks }
    {
        self.tasks.as_slice()
    }

    /// The tag instances that objects carry.
    pub fn tags(&self) -> &TagIndex
        ensures { result.now.bound ≡ self.now.kept.bound }
    {
        &self.tags
    }

    /// The first `most` enabled invocations that name the object, ascending. It tests no guard.
    pub fn tuples_with(
        &self,
        alloc: Global,
        id: u32,
        most: usize,
    ) -> Result<List<Invocation>, AllocError>
        ensures { IfOk result (λ vs. (P : TypedProgram) (S : Plain) → IsWellTyped P → AreSets P (look_of S) S.tags self.now.kept
            → vs ≡ take most (filter (names id) (all_enabled P S))) }
    {
        tuples_with(alloc, self.tasks.as_slice(), &self.tags, id, most)
    }

    /// Makes room for this many updates and bindings.
    fn reserve(&mut self, updates: usize, bindings: usize) -> Result<(), AllocError>
        ensures updates { OnOk result (updates ≤ self.new.spare.updates) }
        ensures bindings { OnOk result (bindings ≤ self.new.spare.bindings) }
        ensures kept { KeepsSets self.old.kept self.new.kept }
        ensures spare { KeepsSpare self.old.spare self.new.spare }
    {
        let room = self.room.max(updates);
        reserve_tasks(&mut self.tasks, room)?;
        self.room = room;
        self.tags.reserve(bindings)
    }

    /// Makes room for the updates for these changes, there and back. On `Err` memory was wanting; what the sets are of is as
    /// it was in each case.
    pub fn reserve_for(&mut self, changes: &Changes) -> Result<(), AllocError>
        ensures room { OnOk result (HasSpare self.new.spare changes.now) }
        ensures kept { KeepsSets self.old.kept self.new.kept }
        ensures spare { KeepsSpare self.old.spare self.new.spare }
    {
        let Some(updates) = updates_for(changes) else {
            return Err(AllocError);
        };
        let Some(bindings) = bindings_for(changes) else {
            return Err(AllocError);
        };
        self.reserve(updates, bindings)
    }

    /// The sets with the body of an object replaced; `None` is absent. The instances have the types of `types` followed by
    /// `made`. There must be room. One step is one test of a guard.
    pub fn update<L: Ledger>(
        &mut self,
        types: &[u32],
        made: &[u32],
        id: u32,
        before: Option<&Body>,
        after: Option<&Body>,
        steps: &mut Steps<L>,
    )
        requires updates { 1 ≤ self.old.spare.updates }
        requires bindings { length (tags_in (option_copied after)) ≤ self.old.spare.bindings }
        ensures sets { (P : TypedProgram) (look : ℕ → Option Body) → look id ≡ option_copied before.entry → HaveOneKind (option_copied before.entry) (option_copied after.entry)
            → AreSets P look (types.now ++ made.now) self.old.kept → AreSets P (put_look id (option_copied after.entry) look) (types.now ++ made.now) self.new.kept }
        ensures steps { steps.new ≤ steps.old + places_of (class_of_either (option_copied before.entry) (option_copied after.entry)) self.old.kept.tasks }
        ensures updates { self.old.spare.updates ≤ self.new.spare.updates + 1 }
        ensures bindings { self.old.spare.bindings ≤ self.new.spare.bindings + length (tags_in (option_copied after.entry)) }
    {
        let update = update_of(id, before, after);
        update_tasks(&mut self.tasks, update, steps);
        unbind(&mut self.tags, types, made, id, tags_in(before));
        bind(&mut self.tags, types, made, id, tags_in(after));
        self.room -= 1;
    }
}
