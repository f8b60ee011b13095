// The book.

ghost use Rattle.std.specs.Prelude.{◌≡◌, ◌<◌, All, ◌≤◌, length, slice_get, Option, None, Some, take as first, IfOk, IfSome, OnOk, OnErr, IsSome};
ghost use Rattle.bc_data.specs.declared.run.Invocation.{Invocation as Call};
ghost use Rattle.bc_mean.specs.Enabled.{is_enabled};
ghost use Rattle.bc_failed.specs.Ordered.{ordered};
ghost use Rattle.bc_pending.specs.Lists.{is_allowed};
ghost use Rattle.bc_book_events.specs.Book.{held_by};
ghost use Rattle.bc_book_events.specs.Events.{begin, given_up, halt, lose, pick, take};
ghost use Rattle.bc_book_events.specs.Sound.{IsSoundBook};
ghost use Rattle.bc_book_events.specs.SoundLaws.{book_at_start};
ghost use Rattle.bc_book_events.specs.Steps.{recorded};
ghost use Rattle.bc_book_events.specs.SoundLaws.{EndsSo};
ghost use Rattle.bc_book_events.specs.Events.{commit_to, commit_with_room, over};
ghost use Rattle.bc_data.specs.declared.run.Ran.TheVariants as ran;
ghost use Rattle.bc_mean.specs.Changes.{apply_changes, fault_of_room};
ghost use Rattle.bc_mean.specs.Enabled.{IsEnabled};
ghost use Rattle.bc_mean.specs.Outcome.{body_outcome, place_of};
ghost use Rattle.bc_machine.specs.Running.{IsAtExit, IsAtFault};
ghost use Rattle.bc_law_core.specs.Areas.{WasEnabled, changes_of};
ghost use Rattle.bc_book.specs.Ends.{AreaAfter, TestsAtMost, commits, fails};
ghost use Rattle.bc_book_reshaped.specs.Reshaped.{guard_tests};

use crate::commit::{make_ready, push_in, renew};
use crate::moved::first_moved;
use crate::parts::{add_failure, bodies_of, is_at_rest, pending_at_start, release};
use bc_book_events::laws::{enabled_names, keeps_sound_book};
use bc_book_events::{Begun, Commit, Failing, Taken};
use bc_book_lists::drops::drop_touching;
use bc_data::list::{Bytes, List};
use bc_data::program::Program;
use bc_data::run::{Body, Changes, Failure, Fault, History, Invocation, Place, Stop};
use bc_data::task_set::TaskSet;
use bc_failed::failures::Failures;
use bc_params::params::Params;
use bc_pending::pending::Pending;
use bc_step::area::Area;
use bc_steps::Steps;
use bc_store::store::Store;
use std::alloc::{AllocError, Global};
use std::marker::Model;
use std::sync::ledger::Ledger;

/// What workers share: the program, its input and the store that the history leads to; the invocations that are pending,
/// and the one that each worker has; the failures; and why the run is over, if it is.
#[derive(Drop)]
pub struct Book {
    program: Program,
    input: Bytes,
    store: Store,
    params: Params,
    pending: Pending,
    workers: u32,
    failures: Failures,
    history: Vec<Invocation>,
    limit: u32,
    stop: Option<Stop>,
}

impl Model for Book {
    ghost use Rattle.std.specs.Coded.{codes};
    ghost use Rattle.bc_data.specs.TypedCode.{statements_code, guard_code};
    ghost use Rattle.bc_book_events.specs.Book.{BookState};

    ghost Value = { BookState };

    ghost coded = { Prim.hlevel (codes, statements_code, guard_code) };

    ghost use Rattle.bc_book.specs.Kept.{state_of, IsKept};

    ghost view = { state_of };

    ghost invariant = { IsKept };
}

impl Book {
    /// The book at the start of a run on this input: what is enabled is pending, and no worker has an invocation. On `Err`
    /// memory was wanting.
    pub fn make(
        alloc: Global,
        program: Program,
        input: &[u8],
        limit: u32,
        workers: u32,
    ) -> Result<Self, AllocError>
        requires short { length input.now ≤ 65536 }
        requires limited { limit ≤ 1000000 }
        requires some { 1 ≤ workers }
        requires few { workers ≤ 16 }
        ensures { IfOk result (λ b. b ≡ book_at_start program input.now limit workers) }
    {
        keeps_sound_book();
        program.is_well_typed();
        let store = Store::make(alloc, input)?;
        let params = Params::make(alloc, &program, &store)?;
        let pending = pending_at_start(alloc, &program, input, workers)?;
        Ok(Book {
            program,
            input: List::from_slice(alloc, input)?,
            store,
            params,
            pending,
            workers,
            failures: Failures::make(alloc)?,
            history: Vec::new(alloc),
            limit,
            stop: None,
        })
    }

    /// What every book keeps.
    pub fn is_sound(&self)
        ensures { IsSoundBook self.now }
    {
        let _ = &self.program;
    }

    /// The program that runs.
    pub fn program(&self) -> &Program
        ensures { result.now ≡ self.now.program }
    {
        &self.program
    }

    /// The input as it was given.
    pub fn input(&self) -> &[u8]
        ensures { result.now ≡ self.now.input }
    {
        self.input.as_slice()
    }

    /// The most commits.
    pub fn limit(&self) -> u32
        ensures value { result ≡ self.now.limit }
        ensures small { self.now.limit ≤ 1000000 }
    {
        self.limit
    }

    /// How many workers there are.
    pub fn workers(&self) -> u32
        ensures value { result ≡ length self.now.running }
        ensures some { 1 ≤ length self.now.running }
        ensures few { length self.now.running ≤ 16 }
    {
        self.workers
    }

    /// The committed invocations, in order.
    pub fn history(&self) -> &[Invocation]
        ensures { result.now ≡ self.now.history }
    {
        self.history.as_slice()
    }

    /// The committed invocations, in order, with nothing else of the book left.
    pub fn into_history(self) -> History
        ensures { result ≡ self.history }
    {
        let Book { history, .. } = self;
        List::from_vec(history)
    }

    /// What was printed.
    pub fn output(&self) -> &[u8]
        ensures { result.now ≡ self.now.store.output }
    {
        self.store.output()
    }

    /// How many objects there are.
    pub fn objects(&self) -> u32
        ensures { result ≡ length self.now.store.bodies }
    {
        self.store.objects()
    }

    /// The body of an object.
    pub fn body(&self, id: u32) -> &Body
        requires { id < length self.now.store.bodies }
        ensures { Some result.now ≡ slice_get self.now.store.bodies id }
    {
        self.store.body(id)
    }

    /// The types of the tag instances.
    pub fn tags(&self) -> &[u32]
        ensures { result.now ≡ self.now.store.tags }
    {
        self.store.tags()
    }

    /// Why the run is over, if it is.
    pub fn stop(&self) -> Option<Stop>
        ensures { result ≡ self.now.stop }
    {
        self.stop
    }

    /// How many failures there are.
    pub fn failed(&self) -> u32
        ensures { result ≡ length self.now.failures }
    {
        self.failures.count()
    }

    /// The first `n` failures by invocation, ascending. On `Err` memory was wanting.
    pub fn least_failures(&self, alloc: Global, n: usize) -> Result<List<Failure>, AllocError>
        ensures { IfOk result (λ fs. fs ≡ first n (ordered self.now.failures)) }
    {
        self.failures.least(alloc, n)
    }

    /// Gives the worker the first pending invocation that is of a task of the set. It takes no memory. A run with nothing
    /// pending and nothing running is over then.
    pub fn take(&mut self, worker: u32, tasks: &TaskSet) -> Taken
        requires worker { worker < length self.old.running }
        requires free { held_by self.old.running worker ≡ None }
        ensures answer { result ≡ (take worker (is_allowed tasks.now) self.old).answer }
        ensures book { self.new ≡ (take worker (is_allowed tasks.now) self.old).book }
    {
        keeps_sound_book();
        if let Some(stop) = self.stop {
            return Taken::Over(stop);
        }
        if is_at_rest(&self.pending, self.workers) {
            self.stop = Some(Stop::End);
            return Taken::Over(Stop::End);
        }
        let Some(v) = self.pending.take_first_of(worker, tasks) else {
            return Taken::Idle;
        };
        Taken::Got(v)
    }

    /// Gives the worker this very invocation. `false` exactly where it is not pending; then nothing changes. It takes no
    /// memory.
    pub fn pick(&mut self, worker: u32, v: Invocation) -> bool
        requires worker { worker < length self.old.running }
        requires free { held_by self.old.running worker ≡ None }
        ensures answer { result ≡ (pick worker v self.old).answer }
        ensures book { self.new ≡ (pick worker v self.old).book }
    {
        keeps_sound_book();
        self.pending.take_this(worker, v)
    }

    /// Whether the invocation is enabled in the store.
    fn is_enabled(&self, v: Invocation) -> bool
        ensures { result ≡ is_enabled self.now.program self.now.store v }
    {
        self.params.is_enabled(v)
    }

    /// Gives the worker the bodies of its invocation's parameters where that is enabled. Elsewhere the invocation is dropped.
    /// On `Err` memory was wanting, and nothing changes.
    pub fn begin(&mut self, alloc: Global, worker: u32) -> Result<Begun, AllocError>
        requires worker { worker < length self.old.running }
        requires holds { IsSome (held_by self.old.running worker) }
        ensures answer { IfOk result (λ begun. (v : Call) → held_by self.old.running worker ≡ Some v → begun ≡ (begin worker v self.old).answer) }
        ensures book { OnOk result ((v : Call) → held_by self.old.running worker ≡ Some v → self.new ≡ (begin worker v self.old).book) }
        ensures err { OnErr result (self.new ≡ self.old) }
    {
        keeps_sound_book();
        enabled_names();
        let Some(v) = self.pending.held(worker) else {
            unreachable!()
        };
        if !self.is_enabled(v) {
            self.pending.forget(worker);
            return Ok(Begun::Stale);
        }
        let bodies = bodies_of(alloc, &self.store, v.objects.as_slice())?;
        Ok(Begun::Ready(bodies))
    }

    /// A copy of the body of an object, for a worker that touches it. On `Err` memory was wanting.
    pub fn fetch(&self, alloc: Global, _worker: u32, id: u32) -> Result<Body, AllocError>
        requires { id < length self.now.store.bodies }
        ensures { IfOk result (λ body. Some body ≡ slice_get self.now.store.bodies id) }
    {
        self.store.body(id).copy(alloc)
    }

    /// The worker has its invocation no more, if it has one. It is pending again where it is enabled, which is the answer.
    fn give_up(&mut self, worker: u32) -> bool
        requires worker { worker < length self.old.running }
        ensures answer { IfSome (held_by self.old.running worker) (λ v. result ≡ is_enabled self.old.program self.old.store v) }
        ensures book { self.new ≡ given_up worker (held_by self.old.running worker) self.old }
    {
        keeps_sound_book();
        let Some(v) = self.pending.held(worker) else {
            return false;
        };
        let back = self.is_enabled(v);
        release(&mut self.pending, worker, back);
        back
    }

    /// Records the failure of the worker's invocation, which the worker has no more. On `Err` memory was wanting, and nothing
    /// changes.
    fn record(
        &mut self,
        alloc: Global,
        worker: u32,
        v: Invocation,
        fault: Fault,
        touched: &[u32],
    ) -> Result<(), AllocError>
        requires holds { held_by self.old.running worker ≡ Some v }
        requires there { All (λ id. id < length self.old.store.bodies) touched.now }
        requires sound { IsSoundBook (recorded worker (record { v = v; fault = fault; touched = touched.now }) self.old) }
        ensures ok { OnOk result (self.new ≡ recorded worker (record { v = v; fault = fault; touched = touched.now }) self.old) }
        ensures err { OnErr result (self.new ≡ self.old) }
    {
        add_failure(alloc, &mut self.failures, v, fault, touched)?;
        release(&mut self.pending, worker, false);
        Ok(())
    }

    /// Ends the worker's invocation with this fault, which is recorded. Where an object has another body than the one that the
    /// invocation ran over, it is given up as by `lose`. On `Err` memory was wanting, and nothing changes.
    pub fn fail(
        &mut self,
        alloc: Global,
        worker: u32,
        fault: Fault,
        area: &Area,
    ) -> Result<Failing, AllocError>
        requires holds { held_by self.old.running worker ≡ Some area.now.invocation }
        requires was { WasEnabled self.old.program area.now }
        requires faults { IsAtFault self.old.program area.now fault }
        ensures answer { IfOk result (λ failing. failing ≡ (fails fault worker area.now self.old).answer) }
        ensures book { OnOk result (self.new ≡ (fails fault worker area.now self.old).book) }
        ensures err { OnErr result (self.new ≡ self.old) }
    {
        if let Some(id) = first_moved(&self.store, area) {
            self.lose(worker);
            return Ok(Failing::Moved { id });
        }
        let Some(v) = self.pending.held(worker) else {
            unreachable!()
        };
        self.record(alloc, worker, v, fault, area.touched())?;
        Ok(Failing::Recorded)
    }

    /// Ends the run by this stop, unless it is over. The worker gives up what it has. It takes no memory.
    fn over(&mut self, worker: u32, stop: &Stop)
        requires worker { worker < length self.old.running }
        requires holds { IsSome (held_by self.old.running worker) }
        requires sound { (v : Call) → held_by self.old.running worker ≡ Some v → IsSoundBook (over worker v stop.now self.old).book }
        ensures { (v : Call) → held_by self.old.running worker ≡ Some v → self.new ≡ (over worker v stop.now self.old).book }
    {
        self.lose(worker);
        self.stop = self.stop.or(Some(*stop));
    }

    /// The place of an invocation's task.
    fn place(&self, v: &Invocation) -> Place
        requires { v.now.task < length self.now.program.tasks }
        ensures { result ≡ place_of (slice_get self.now.program.tasks v.now.task) }
    {
        self.program.tasks()[v.task as usize].at()
    }

    /// Commits changes that have room, where no limit stands against it. On `Err` memory was wanting, and nothing changes.
    fn publish<L: Ledger>(
        &mut self,
        alloc: Global,
        worker: u32,
        v: Invocation,
        mut changes: Changes,
        steps: &mut Steps<L>,
    ) -> Result<Commit, AllocError>
        requires holds { held_by self.old.running worker ≡ Some v }
        requires enabled { IsEnabled self.old.program self.old.store v }
        requires exits { (body_outcome self.old.program self.old.store v).ran ≡ ran.Commit changes }
        requires room { fault_of_room self.old.store changes ≡ None }
        requires left { length self.old.history < self.old.limit }
        requires sound { IsSoundBook (commit_to (apply_changes self.old.store changes) worker v self.old).book }
        ensures answer { IfOk result (λ c. c ≡ (commit_to (apply_changes self.old.store changes) worker v self.old).answer) }
        ensures book { OnOk result (self.new ≡ (commit_to (apply_changes self.old.store changes) worker v self.old).book) }
        ensures err { OnErr result (self.new ≡ self.old) }
        ensures steps { IfOk result (TestsAtMost (guard_tests self.old.program changes) steps.old steps.new) }
    {
        self.history.reserve(1)?;
        self.store.resolve(&mut changes);
        let named = &v;
        let ready = make_ready(
            alloc,
            &mut self.store,
            &mut self.params,
            &mut self.pending,
            self.workers,
            &self.failures,
            &changes,
            *named,
            steps,
        )?;
        let Some(ready) = ready else {
            let stop = Stop::Crowded(v);
            self.over(worker, &stop);
            return Ok(Commit::Over(stop));
        };
        renew(&mut self.pending, &self.params, worker, &ready);
        drop_touching(&mut self.failures, ready.changed.as_slice());
        self.store.publish(changes);
        push_in(&mut self.history, v);
        Ok(Commit::Committed(self.history.len() as u32))
    }

    /// Commits changes that have room, within the limit of commits. On `Err` memory was wanting, and nothing changes.
    fn commit_to<L: Ledger>(
        &mut self,
        alloc: Global,
        worker: u32,
        v: Invocation,
        changes: Changes,
        steps: &mut Steps<L>,
    ) -> Result<Commit, AllocError>
        requires holds { held_by self.old.running worker ≡ Some v }
        requires enabled { IsEnabled self.old.program self.old.store v }
        requires exits { (body_outcome self.old.program self.old.store v).ran ≡ ran.Commit changes }
        requires room { fault_of_room self.old.store changes ≡ None }
        requires sound { IsSoundBook (commit_to (apply_changes self.old.store changes) worker v self.old).book }
        ensures answer { IfOk result (λ c. c ≡ (commit_to (apply_changes self.old.store changes) worker v self.old).answer) }
        ensures book { OnOk result (self.new ≡ (commit_to (apply_changes self.old.store changes) worker v self.old).book) }
        ensures err { OnErr result (self.new ≡ self.old) }
        ensures steps { IfOk result (TestsAtMost (guard_tests self.old.program changes) steps.old steps.new) }
    {
        if self.history.len() == self.limit as usize {
            let stop = Stop::Spent(v);
            self.over(worker, &stop);
            return Ok(Commit::Over(stop));
        }
        self.publish(alloc, worker, v, changes, steps)
    }

    /// Commits changes, or records that there is no room for them. On `Err` memory was wanting, and nothing changes.
    fn commit_changes<L: Ledger>(
        &mut self,
        alloc: Global,
        worker: u32,
        v: Invocation,
        changes: Changes,
        touched: &[u32],
        steps: &mut Steps<L>,
    ) -> Result<Commit, AllocError>
        requires holds { held_by self.old.running worker ≡ Some v }
        requires there { All (λ id. id < length self.old.store.bodies) touched.now }
        requires ends { EndsSo self.old v (ran.Commit changes) touched.now }
        requires sound { IsSoundBook (commit_with_room (fault_of_room self.old.store changes) changes touched.now worker v self.old).book }
        ensures answer { IfOk result (λ c. c ≡ (commit_with_room (fault_of_room self.old.store changes) changes touched.now worker v self.old).answer) }
        ensures book { OnOk result (self.new ≡ (commit_with_room (fault_of_room self.old.store changes) changes touched.now worker v self.old).book) }
        ensures err { OnErr result (self.new ≡ self.old) }
        ensures steps { IfOk result (TestsAtMost (guard_tests self.old.program changes) steps.old steps.new) }
    {
        if let Some(kind) = self.store.room_for(&changes) {
            let fault = Fault {
                kind,
                at: self.place(&v),
            };
            self.record(alloc, worker, v, fault, touched)?;
            return Ok(Commit::NoRoom(kind));
        }
        self.commit_to(alloc, worker, v, changes, steps)
    }

    /// Ends the worker's invocation, which exits with what the area changes: it is committed, and the area is empty. Where the
    /// run is over, or an object has another body than the one that the invocation ran over, it is given up as by `lose`; where
    /// the store has no room for it, that is recorded as its failure; where no commit is left, or too many invocations would be
    /// enabled, it is given up, and the run is over. One step is one test of a guard: for each object that a commit changes or
    /// makes one at most for each parameter of its class. On `Err` memory was wanting, and nothing changes.
    pub fn commit<L: Ledger>(
        &mut self,
        alloc: Global,
        worker: u32,
        area: &mut Area,
        steps: &mut Steps<L>,
    ) -> Result<Commit, AllocError>
        requires holds { held_by self.old.running worker ≡ Some area.old.invocation }
        requires was { WasEnabled self.old.program area.old }
        requires exits { IsAtExit self.old.program area.old }
        ensures answer { IfOk result (λ c. c ≡ (commits worker area.old self.old).answer) }
        ensures book { OnOk result (self.new ≡ (commits worker area.old self.old).book) }
        ensures err { OnErr result (self.new ≡ self.old) }
        ensures steps { IfOk result (TestsAtMost (guard_tests self.old.program (changes_of self.old.store area.old)) steps.old steps.new) }
        ensures area { IfOk result (λ c. AreaAfter c area.old area.new) }
        ensures same { OnErr result (area.new ≡ area.old) }
    {
        if let Some(stop) = self.stop {
            self.over(worker, &stop);
            return Ok(Commit::Over(stop));
        }
        if let Some(id) = first_moved(&self.store, area) {
            self.lose(worker);
            return Ok(Commit::Moved { id });
        }
        let Some(v) = self.pending.held(worker) else {
            unreachable!()
        };
        let changes = area.changes(alloc)?;
        let ended = self.commit_changes(alloc, worker, v, changes, area.touched(), steps)?;
        if let Commit::Committed(_) = ended {
            area.clear();
        }
        Ok(ended)
    }

    /// The worker gives its invocation up. `true` where it is still enabled, and pending again; elsewhere it is dropped. It
    /// takes no memory.
    pub fn lose(&mut self, worker: u32) -> bool
        requires worker { worker < length self.old.running }
        requires holds { IsSome (held_by self.old.running worker) }
        ensures answer { (v : Call) → held_by self.old.running worker ≡ Some v → result ≡ (lose worker v self.old).answer }
        ensures book { (v : Call) → held_by self.old.running worker ≡ Some v → self.new ≡ (lose worker v self.old).book }
    {
        self.give_up(worker)
    }

    /// Ends the run, as the worker wants memory. The worker gives up what it has. It takes no memory.
    pub fn halt(&mut self, worker: u32)
        requires { worker < length self.old.running }
        ensures { self.new ≡ halt worker self.old }
    {
        self.give_up(worker);
        self.stop = self.stop.or(Some(Stop::Memory));
    }
}
