//! The scheduler's core: a job, its workers, and the turns that run it.
ghost use Rattle.std.specs.Prelude.{◌≡◌, ◌<◌, ◌≤◌, ℕ, IfOk, IfErr, IsSome, IfSome, MatchOption, Some, None, true, false, IsTrue, map};
ghost use Rattle.core_model.specs.State.{opening_core};
ghost use Rattle.core_model.specs.Choice.{choice};
ghost use Rattle.sp_order.specs.Jobs.{job_tree};
ghost use Rattle.sp_order.specs.Precedence.{leaves};
ghost use Rattle.batch_history.specs.Lawful.{LawfulWith};
ghost use Rattle.core_model.specs.Invariant.{Invariant};
ghost use Rattle.core_model.specs.LeafSources.{HasSources};
ghost use Rattle.core_model.specs.Reports.{IsReportOf, IsRowOf};
ghost use Rattle.std.specs.List.{AllByRecursion, range_with_len};
ghost use Rattle.limits.specs.declared.TheConstants.{MOST_WORKERS};
ghost use Rattle.batcher_core.specs.Cores.{job_in_with, state_in, due_in, moved_if, turn_answer, is_over_in, IsTurnResult};
ghost use Rattle.core_state.specs.Code.Representation.{RepInvariant};
ghost use Rattle.core_state.specs.WorkDue.{CanGive};
ghost use Rattle.batcher_core.specs.declared.turn.Turn.TheVariants.{Moved};
ghost use Rattle.batcher_core.specs.Doings.{doing_in};

use crate::report::rows_of;
use crate::spun::{Given, SpunWith};
use crate::turn::Turn;
use batch_history::{History, Report, Row, Rows};
use core_model::laws::book::job_has_its_sources;
use core_model::laws::report::{done_leaves_have_run, done_report_is_lawful};
use core_model::{Event, Setting};
use core_state::{Doing, State, history_of};
use leaf_work::{Spin, WorkBrand, WorkValue};
use sp_order::Job;
use sp_order::laws::{plan_has_sides, plan_stands_for_tree};
use std::alloc::{AllocError, Global};
use std::marker::{Model, PhantomData};

/// The scheduler's core: a job, its workers, and their present state. `B` says what the leaves of work compute. After an
/// allocation failure in a turn the core is spent: its state may be part of the way through an event, and it takes no
/// more turns.
#[derive(Drop)]
pub struct CoreWith<B: WorkBrand> {
    alloc: Global,
    setting: Setting,
    table: State,
    spent: bool,
    of: PhantomData<B>,
}

/// The core of a job whose leaves of work spin.
pub type Core = CoreWith<Spin>;

impl<B: WorkBrand> Model for CoreWith<B> {
    ghost use Rattle.std.specs.Prelude.{◌≡◌, ◌<◌, false};
    ghost use Rattle.std.specs.Coded.{codes};
    ghost use Rattle.sp_order.specs.Jobs.{coded_job};
    ghost use Rattle.batcher_core.specs.Cores.{CoreView};
    ghost use Rattle.core_state.specs.Code.Representation.{Represents};

    ghost Value = { CoreView };

    ghost coded = { Prim.hlevel (codes, coded_job) };

    ghost view = { λ c. record {
      job = c.setting.job;
      workers = c.setting.workers;
      table = c.table;
      spent = c.spent;
    } };

    ghost invariant = { λ c. (0 < c.setting.workers) × (c.spent ≡ false → Represents B.work c.setting c.table) };
}

impl<B: WorkBrand> CoreWith<B> {
    /// The core of a job with leaves, in the opening state.
    ///
    /// Memory: proportional to the nodes and the workers.
    pub fn start(alloc: Global, job: &Job, workers: u32) -> Result<CoreWith<B>, AllocError>
        requires leaves { IsSome job.now.shape }
        requires some_workers { 0 < workers }
        requires few_workers { workers ≤ MOST_WORKERS }
        ensures job { IfOk result (λ core. (core.job ≡ job.now) × (core.workers ≡ workers)) }
        ensures shape { IfOk result (λ core. core.job.shape ≡ Some (job_tree core.job)) }
        ensures opening { IfOk result (λ core. (state_in core ≡ opening_core)
            × (core.spent ≡ false)) }
    {
        plan_stands_for_tree();
        plan_has_sides();
        job_has_its_sources();
        let setting = Setting::of(alloc, job, workers)?;
        let table = State::opening(alloc, setting.job.nodes(), workers)?;
        Ok(CoreWith {
            alloc,
            setting,
            table,
            spent: false,
            of: PhantomData,
        })
    }

    /// The number of the work that a worker has due: that of a working leaf that it has started.
    fn due(&self, worker: u32) -> Option<u32>
        requires unspent { self.now.spent ≡ false }
        requires worker_in { worker < self.now.workers }
        ensures { result ≡ due_in self.now worker }
    {
        self.table.work_due::<B>(&self.setting, worker)
    }

    /// The event of a worker's next turn, if it has one. `work` gives the value of the work that is due, if some is.
    #[inline(always)]
    fn choice<V: WorkValue>(&self, worker: u32, work: &V) -> Result<Option<Event>, AllocError>
        requires unspent { self.now.spent ≡ false }
        requires worker_in { worker < self.now.workers }
        requires meaning { V.meaning work.now ≡ B.work }
        requires has { CanGive V.has work.now (due_in self.now worker) }
        ensures { IfOk result
            (λ event. event ≡ choice (job_in_with B.work self.now) (state_in self.now) worker) }
    {
        self.table
            .choose::<B, V>(self.alloc, &self.setting, worker, work)
    }

    /// Cheap check: true implies that the worker has no event; false says nothing.
    ///
    /// Memory: none.
    #[inline(always)]
    pub(crate) fn is_certainly_idle(&self, worker: u32) -> bool
        requires worker_in { worker < self.now.workers }
        ensures choice { IsTrue result
            → choice (job_in_with B.work self.now) (state_in self.now) worker ≡ None }
        ensures spent { IsTrue result → self.now.spent ≡ false }
    {
        !self.spent && self.table.is_certainly_idle::<B>(&self.setting, worker)
    }

    /// Performs an event that a worker has.
    #[inline(always)]
    fn perform(&mut self, worker: u32, event: Event) -> Result<(), AllocError>
        requires worker_in { worker < self.old.workers }
        requires unspent { self.old.spent ≡ false }
        requires chosen { choice (job_in_with B.work self.old) (state_in self.old) worker ≡ Some event }
        ensures event { IfOk result
            (λ _. IsTurnResult Moved (job_in_with B.work self.old) (state_in self.old) worker (state_in self.new)) }
        ensures failed { IfErr result (λ _. self.new.spent ≡ true) }
        ensures spent { IfOk result (λ _. self.new.spent ≡ false) }
        ensures job { (self.new.job ≡ self.old.job)
            × (self.new.workers ≡ self.old.workers) }
    {
        match self
            .table
            .apply::<B>(self.alloc, &self.setting, worker, event)
        {
            Ok(()) => Ok(()),
            Err(error) => {
                self.spent = true;
                Err(error)
            }
        }
    }

    /// Performs the event of a worker's turn, if it has one. `work` gives the value of the work that is due, if some is.
    #[inline(always)]
    pub(crate) fn advance<V: WorkValue>(
        &mut self,
        worker: u32,
        work: &V,
    ) -> Result<Turn, AllocError>
        requires worker_in { worker < self.old.workers }
        requires meaning { V.meaning work.now ≡ B.work }
        requires has { CanGive V.has work.now (due_in self.old worker) }
        ensures turn { IfOk result
            (λ t. t ≡ moved_if (choice (job_in_with B.work self.old) (state_in self.old) worker)) }
        ensures event { IfOk result
            (λ t. IsTurnResult t (job_in_with B.work self.old) (state_in self.old) worker (state_in self.new)) }
        ensures failed { IfErr result (λ _. self.new.spent ≡ true) }
        ensures spent { IfOk result (λ _. (self.old.spent ≡ false) × (self.new.spent ≡ false)) }
        ensures job { (self.new.job ≡ self.old.job)
            × (self.new.workers ≡ self.old.workers) }
    {
        if self.spent {
            return Err(AllocError);
        }
        match self.choice(worker, work) {
            Ok(Some(event)) => {
                self.perform(worker, event)?;
                Ok(Turn::Moved)
            }
            Ok(None) => Ok(Turn::Idle),
            Err(error) => {
                self.spent = true;
                Err(error)
            }
        }
    }

    /// One turn of a worker. If the worker has work due and `spun` is `None`, the turn changes nothing and returns the
    /// number of the work; the caller passes the work done in the next turn. If no work is due, `spun` is ignored. After
    /// an `Err` the core is spent, and each later turn is an `Err`.
    ///
    /// Memory: at most one node in a list, or one batch.
    pub fn turn(&mut self, worker: u32, spun: Option<SpunWith<B>>) -> Result<Turn, AllocError>
        requires worker_in { worker < self.old.workers }
        requires work { IfSome spun (λ s. (steps : ℕ) → due_in self.old worker ≡ Some steps
            → s ≡ steps) }
        ensures turn { IfOk result (λ t. t
            ≡ turn_answer (due_in self.old worker) spun
            (choice (job_in_with B.work self.old) (state_in self.old) worker)) }
        ensures event { IfOk result
            (λ t. IsTurnResult t (job_in_with B.work self.old) (state_in self.old) worker (state_in self.new)) }
        ensures failed { IfErr result (λ _. self.new.spent ≡ true) }
        ensures spent { IfOk result (λ _. (self.old.spent ≡ false) × (self.new.spent ≡ false)) }
        ensures job { (self.new.job ≡ self.old.job)
            × (self.new.workers ≡ self.old.workers) }
    {
        if self.spent {
            return Err(AllocError);
        }
        if let Some(steps) = self.due(worker) {
            if spun.is_none() {
                return Ok(Turn::Spin(steps));
            }
        }
        self.advance(worker, &Given::of(spun))
    }

    /// A worker's ready nodes, oldest first. A number that is no worker's has none.
    ///
    /// Memory: none.
    #[tactic(auto, unfolding(core_state::specs::Abstraction::ready_of))]
    pub fn ready(&self, worker: u32) -> &[u32]
        ensures { result.now ≡ (state_in self.now).ready worker }
    {
        self.table.ready.of(worker)
    }

    /// What a worker is doing: always `Doing::Other` in a spent core.
    ///
    /// Memory: none.
    pub fn doing(&self, worker: u32) -> Doing
        requires { worker < self.now.workers }
        ensures { result ≡ doing_in self.now worker }
    {
        if self.spent {
            return Doing::Other;
        }
        self.table.doing(&self.setting, worker)
    }

    /// The number of workers.
    pub fn workers(&self) -> u32
        ensures workers { result ≡ self.now.workers }
        ensures some { 0 < result }
    {
        self.setting.workers
    }

    /// For a core that is not spent the model's invariant, and that the sources of leaves are before them in the plan.
    /// For proofs only: it does nothing.
    pub fn stands(&self)
        ensures invariant { self.now.spent ≡ false
            → Invariant (job_in_with B.work self.now) (state_in self.now) }
        ensures sources { self.now.spent ≡ false → HasSources (job_in_with B.work self.now) }
    {
        self.invariant_holds();
    }

    /// The invariant of the stored state, for a core that is not spent. For proofs only: it does nothing.
    pub(crate) fn invariant_holds(&self)
        ensures { self.now.spent ≡ false
            → RepInvariant B.work self.now.job self.now.workers self.now.table }
    {
        let _ = &self.spent;
    }

    /// The batches served so far, `None` in a spent core.
    ///
    /// Memory: none.
    pub fn history(&self) -> Option<&History>
        ensures { MatchOption result (self.now.spent ≡ true)
            (λ history. (self.now.spent ≡ false) × (history.now ≡ (state_in self.now).state.book)) }
    {
        if self.spent {
            return None;
        }
        match &self.table.shop {
            Some(shop) => Some(shop.history()),
            None => unreachable!(),
        }
    }

    /// Whether the root is done and the core is not spent.
    ///
    /// Memory: none.
    pub fn is_over(&self) -> bool
        ensures { result ≡ is_over_in self.now }
    {
        !self.spent && self.table.root_done()
    }

    /// The rows of the report of a core that is over.
    fn rows(&self, alloc: Global) -> Result<Vec<Row>, AllocError>
        requires { is_over_in self.now ≡ true }
        ensures leaves { IfOk result (λ rows. map (λ row. row.leaf) rows.items
            ≡ range_with_len 0 (leaves (job_tree self.now.job))) }
        ensures rows { IfOk result (λ rows. AllByRecursion
            (IsRowOf (job_in_with B.work self.now) (state_in self.now).state) rows.items) }
    {
        plan_stands_for_tree();
        done_leaves_have_run();
        let leaf_total = self.setting.job.acts().len() as u32;
        rows_of(
            alloc,
            &self.setting.job,
            &self.table.nodes,
            &self.table.values,
            leaf_total,
        )
    }

    /// The report of a core that is over.
    pub fn report(self, alloc: Global) -> Result<Report, AllocError>
        requires { is_over_in self ≡ true }
        ensures report { IfOk result
            (λ report. IsReportOf (job_in_with B.work self) (leaves (job_tree self.job)) (state_in self).state report) }
        ensures lawful { IfOk result
            (λ report. LawfulWith B.work self.job self.workers report) }
    {
        plan_stands_for_tree();
        done_report_is_lawful();
        let rows = self.rows(alloc)?;
        let workers = self.setting.workers;
        let table = self.table;
        Ok(Report {
            workers,
            history: history_of(table.shop),
            rows: Rows::of(rows),
        })
    }
}
