//! The loop of one worker under the lock.
ghost use Rattle.std.specs.Prelude.{◌≡◌, ◌≤◌};
ghost use Rattle.limits.specs.declared.TheConstants.{MOST_WORKERS};
ghost use Rattle.two_deques.specs.Hands.{held, workers_of, IsHandOf};
ghost use Rattle.locked_run.specs.Code.Hints.{AreHintsOf};
ghost use Rattle.locked_run.specs.Points.{point_by};

use crate::hints::WorkHints;
use crate::run::LockedRun;
use crate::turn::Look;
use batcher_core::{Doing, Spun};
use run_points::{Pause, Point, wait_for_others};
use std::sync::atomic::AtomicU64;
use std::sync::{Mutex, Wait};
use std::thread;
use two_deques::{Decks, Hand};

/// What the workers of a run share.
#[derive(Drop)]
pub(crate) struct Shared<'a, S: LockedRun, G> {
    pub(crate) run: Mutex<S>,
    pub(crate) decks: Decks,
    /// How many workers have arrived at the start barrier.
    pub(crate) arrived: AtomicU64,
    pub(crate) workers: u32,
    pub(crate) pause: &'a G,
    ghost sizes: { (workers ≡ S.workers) × (workers ≡ workers_of decks) × (workers ≤ MOST_WORKERS) },
}

/// What a worker carries from turn to turn: how it looks for work, the work that it did and has not handed in, and what
/// its last event left it doing.
#[derive(Drop)]
struct Worker {
    hints: WorkHints,
    spun: Option<Spun>,
    doing: Doing,
}

/// The point of the run that an event brings a worker to, by what the worker did before the event (`was`) and does
/// after it. A call stays posted over several events, so only its first one is a point.
fn point_reached(was: Doing, doing: Doing) -> Option<Point>
    ensures { result ≡ point_by was doing }
{
    match doing {
        Doing::Started(leaf) => Some(Point::LeafStart(leaf)),
        Doing::Calling(leaf) => match was {
            Doing::Calling(_) => None,
            _ => Some(Point::Posted(leaf)),
        },
        Doing::Other => None,
    }
}

impl Worker {
    /// A worker at the start.
    fn new(hand: Hand, workers: u32) -> Worker
        ensures { (result.hints.hand ≡ hand) × (result.hints.victim ≡ (held hand).worker)
            × (result.hints.workers ≡ workers) }
    {
        Worker {
            hints: WorkHints::new(hand, workers),
            spun: None,
            doing: Doing::Other,
        }
    }

    /// Records what an event left the worker doing. At a point of the run, the worker may be held there.
    fn set_doing<G: Pause>(&mut self, pause: &G, doing: Doing)
        ensures { self.new.hints ≡ self.old.hints }
    {
        let was = self.doing;
        self.doing = doing;
        if let Some(point) = point_reached(was, doing) {
            pause.at(point, self.hints.hand.worker());
        }
    }

    /// Pushes a node that became ready, as a sign to the other workers, and yields the thread to them. A refused push
    /// fails the run. The answer is whether the worker goes on.
    fn announce<S: LockedRun, R: Wait, G>(
        &mut self,
        rt: &R,
        shared: &Shared<S, G>,
        node: u32,
    ) -> bool
        requires hints { AreHintsOf shared.now.decks self.old.hints }
        ensures hints { AreHintsOf shared.now.decks self.new.hints }
    {
        if shared.decks.push_core(&mut self.hints.hand, node).is_ok() {
            thread::yield_now();
            return true;
        }
        shared.run.lock(rt).fail();
        false
    }

    /// What the worker does outside the lock after a look at the core. The answer is whether the worker goes on.
    fn act_on<S: LockedRun, R: Wait, G: Pause>(
        &mut self,
        rt: &R,
        shared: &Shared<S, G>,
        look: Look,
    ) -> bool
        requires hints { AreHintsOf shared.now.decks self.old.hints }
        ensures hints { AreHintsOf shared.now.decks self.new.hints }
    {
        match look {
            Look::Ended => false,
            Look::Due(steps) => {
                self.spun = Some(Spun::of(steps));
                true
            }
            Look::Idle => {
                self.hints.find(rt, &shared.decks);
                true
            }
            Look::Moved { doing, made: None } => {
                self.hints.reset_backoff();
                self.set_doing(shared.pause, doing);
                true
            }
            Look::Moved {
                doing,
                made: Some(node),
            } => {
                self.hints.reset_backoff();
                let goes_on = self.announce(rt, shared, node);
                self.set_doing(shared.pause, doing);
                goes_on
            }
        }
    }
}

/// Takes the turns of one worker, after the start barrier, until the run is over or memory runs out. The lock is held
/// for one turn at a time.
pub(crate) fn work<S: LockedRun, R: Wait, G: Pause>(rt: &R, shared: &Shared<S, G>, hand: Hand)
    requires { IsHandOf shared.now.decks hand }
{
    wait_for_others(&shared.arrived, shared.workers);
    let mut worker = Worker::new(hand, shared.workers);
    for _ in rt.forever() {
        let number = worker.hints.hand.worker();
        let spun = worker.spun.take();
        // The look is bound by `let`: a guard in the head of a `match` or an `if` would hold the lock to the end of
        // that block.
        let look = shared.run.lock(rt).look(number, spun);
        if !worker.act_on(rt, shared, look) {
            break;
        }
    }
}
