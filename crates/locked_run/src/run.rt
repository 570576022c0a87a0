//! The state behind the lock: the core of the job that is run.
ghost use Rattle.std.specs.Prelude.{◌≡◌, ◌<◌, IfOk, None, true, false, ℕ, []};
ghost use Rattle.sp_order.specs.Jobs.{JobValue};
ghost use Rattle.batch_history.specs.Lawful.{Lawful};
ghost use Rattle.batcher_core.specs.Cores.{state_in};
ghost use Rattle.core_model.specs.Invariant.{Invariant};
ghost use Rattle.core_model.specs.State.{core_job, opening_core};
ghost use Rattle.core_model.specs.Reports.{IsRunReport};
ghost use Rattle.locked_run.specs.Runs.{RunView, IsCoreOf};
ghost use Rattle.locked_run.specs.Looks.{HasLooked};

use crate::turn::{Look, newest_if_longer, turn_with};
use batch_history::Report;
use batcher_core::{Core, Spun, Turn, drive};
use core_model::laws::report::run_goes_on_from_reached;
use core_model::laws::run::step_leads_to_reached;
use std::alloc::{AllocError, Global};
use std::marker::{Brand, Model, PhantomData};

/// The job of a run and its number of workers, as a type. Only its type tells anything of a value behind a lock, so the
/// type of the state names the job. Each run picks its own brand.
pub trait JobBrand {
    ghost job: { JobValue };

    ghost workers: { ℕ };
}

impl JobBrand for Brand {
    ghost job = { record { shape = None; acts = []; sources = []; names = [] } };

    ghost workers = { 1 };
}

/// The operations on the state behind the lock.
pub trait LockedRun: Drop {
    ghost job: { JobValue };

    ghost workers: { ℕ };

    /// The view of the state in contracts.
    ghost seen: { Self → RunView };

    /// A look by the worker, with the work that it has done outside the lock, if any.
    fn look(&mut self, worker: u32, spun: Option<Spun>) -> Look
        requires { worker < workers }
        ensures { HasLooked worker (seen self.old) (seen self.new) result };

    /// Records that memory ran out in a worker, outside the lock.
    fn fail(&mut self)
        ensures { seen self.new ≡ record (seen self.old) { failed = true } };

    /// The report of the run, or an error where memory ran out.
    fn report(self, alloc: Global) -> Result<Report, AllocError>
        ensures whole { IfOk result (λ _. (seen self).failed ≡ false) }
        ensures lawful { IfOk result (λ report. Lawful job workers report) }
        ensures run { IfOk result (IsRunReport job workers) };
}

/// The core of the given job, and whether memory ran out in some worker. Each taker of the lock finds a core of this
/// job, whatever the other workers did. Unless memory ran out, the core is not spent and so has the core's invariant.
#[derive(Drop)]
pub struct Run<J: JobBrand> {
    core: Core,
    failed: bool,
    of: PhantomData<J>,
}

impl<J: JobBrand> Model for Run<J> {
    ghost use Rattle.std.specs.Coded.{codes};
    ghost use Rattle.sp_order.specs.Jobs.{coded_job};
    ghost use Rattle.locked_run.specs.Runs.{RunView, IsRunOf};

    ghost Value = { RunView };

    ghost coded = { Prim.hlevel (codes, coded_job) };

    ghost view = { λ r. record { core = r.core; failed = r.failed } };

    ghost invariant = { λ r. IsRunOf J.job J.workers
        (record { core = r.core; failed = r.failed }) };
}

impl<J: JobBrand> Run<J> {
    /// The run of a core that is at its opening state.
    pub fn new(core: Core) -> Run<J>
        requires job { IsCoreOf J.job J.workers core }
        requires unspent { core.spent ≡ false }
        requires opening { state_in core ≡ opening_core }
        ensures { result ≡ record { core = core; failed = false } }
    {
        Run {
            core,
            failed: false,
            of: PhantomData,
        }
    }

    /// A law about each value of the type, and so about the state whenever the lock is free: a core that is not spent
    /// has the invariant, for the given job and workers; and it is not spent unless memory ran out. The function does
    /// nothing.
    pub fn stands(&self)
        ensures invariant { self.now.core.spent ≡ false
            → Invariant (core_job J.job J.workers) (state_in self.now.core) }
        ensures whole { self.now.failed ≡ false → self.now.core.spent ≡ false }
    {
        self.core.stands();
    }
}

impl<J: JobBrand> LockedRun for Run<J> {
    ghost job = { J.job };

    ghost workers = { J.workers };

    ghost seen = { λ run. run };

    /// One turn of the worker, with the work that it has done outside the lock, if any. Where memory runs out in the
    /// turn, the run has failed, and each later look answers `Ended`.
    fn look(&mut self, worker: u32, spun: Option<Spun>) -> Look
        requires { worker < J.workers }
        ensures { HasLooked worker self.old self.new result }
    {
        step_leads_to_reached();
        if self.failed || self.core.is_over() {
            return Look::Ended;
        }
        let before = self.core.ready(worker).len();
        match turn_with(&mut self.core, worker, spun) {
            Ok(Turn::Moved) => Look::Moved {
                doing: self.core.doing(worker),
                made: newest_if_longer(self.core.ready(worker), before),
            },
            Ok(Turn::Spin(steps)) => Look::Due(steps),
            Ok(Turn::Idle) => Look::Idle,
            Err(_) => {
                self.failed = true;
                Look::Ended
            }
        }
    }

    /// Records that memory ran out in a worker, outside the lock.
    fn fail(&mut self)
        ensures { self.new ≡ record self.old { failed = true } }
    {
        self.failed = true;
    }

    /// The report of the run, or an error where memory ran out. What the workers left undone is finished here.
    fn report(self, alloc: Global) -> Result<Report, AllocError>
        ensures whole { IfOk result (λ _. self.failed ≡ false) }
        ensures lawful { IfOk result (λ report. Lawful J.job J.workers report) }
        ensures run { IfOk result (IsRunReport J.job J.workers) }
    {
        run_goes_on_from_reached();
        let Run {
            core,
            failed,
            of: _,
        } = self;
        if failed {
            return Err(AllocError);
        }
        drive(alloc, core, &[])
    }
}
