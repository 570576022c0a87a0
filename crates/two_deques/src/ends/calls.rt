//! One worker's push, pop and steal on the deques of one kind.
ghost use Rattle.std.specs.Prelude.{◌≡◌, ◌<◌, ◌≤◌, false, [], ◌∷◌, ◌++◌, length};
ghost use Rattle.std.specs.Prelude.{IfErr, IfNone, IfSome, OnOk};
ghost use Rattle.crossbeam_deque.specs.Handles.{view, IsPassOf, stealer_deque};
ghost use Rattle.crossbeam_deque.specs.Handles.{SameWorker, worker_capacity};
ghost use Rattle.two_deques.specs.Rule.{FoundAtMost};
ghost use Rattle.two_deques.specs.Reaches.{ReachEach};
ghost use Rattle.two_deques.specs.Ends.{held_ends, risen, after_push, with_newest, after_empty_pop};
ghost use Rattle.two_deques.specs.Ends.{after_steal, after_failed_steal, WasEmpty, HadAtMostOne};

use crate::ends::{Ends, Reach};
use crate::rule::{DequeRule, Part, Popped, Pushed, Stolen};
use crossbeam_deque::{Steal, Stealer};
use std::alloc::Global;
use std::sync::Wait;

/// One more, saturating.
fn rise(count: u64) -> u64
    ensures { result ≡ risen count }
{
    count.saturating_add(1)
}

impl<T: Drop> Reach<T> {
    /// Steals the oldest task of the deque, or finds none. It retries as long as `steal_as` returns `Retry`.
    #[tactic(auto, using(crate::proofs::RuleLemmas::Steps::steals))]
    fn steal<R: Wait>(
        &mut self,
        rt: &R,
        thief: &Stealer<T, Global, Part<T>, DequeRule>,
    ) -> Option<T>
        requires { IsPassOf (stealer_deque thief.now) self.old.pass }
        ensures pass { IsPassOf (stealer_deque thief.now) self.new.pass }
        ensures some { IfSome result (λ x.
            ((view self.new.pass).tasks ≡ (view self.old.pass).tasks ++ x ∷ [])
            × (self.new.failed_steals ≡ self.old.failed_steals)) }
        ensures none { IfNone result (((view self.new.pass).tasks ≡ (view self.old.pass).tasks)
            × (self.new.failed_steals ≡ risen self.old.failed_steals)) }
        ensures cause { IfNone result (FoundAtMost 1 false (view self.old.pass).tasks) }
    {
        for _ in rt.forever() {
            match thief.steal_as::<Stolen>(&mut self.pass) {
                Steal::Success(task) => return Some(task),
                Steal::Empty => {
                    self.failed_steals = rise(self.failed_steals);
                    return None;
                }
                Steal::Retry => {}
            }
        }
        unreachable!()
    }
}

impl<T: Drop> Ends<T> {
    /// Pushes a task on the worker's own deque.
    #[tactic(auto, using(crate::proofs::RuleLemmas::Steps::pushes))]
    pub(crate) fn push(&mut self, task: T) -> Result<(), T>
        ensures ok { OnOk result (held_ends self.new ≡ after_push task (held_ends self.old)) }
        ensures err { IfErr result (λ back. (back ≡ task) × (held_ends self.new ≡ held_ends self.old)) }
        ensures cause { IfErr result (λ _. worker_capacity self.old.own ≤ (held_ends self.old).pushes) }
        ensures same { SameWorker self.old.own self.new.own × (self.new.reaches ≡ self.old.reaches) }
    {
        self.own.push_as::<Pushed>(task)
    }

    /// Pops the newest task of the worker's own deque.
    #[tactic(auto, using(crate::proofs::RuleLemmas::Steps::pops))]
    pub(crate) fn pop(&mut self) -> Option<T>
        ensures some { IfSome result (λ x. held_ends self.old ≡ with_newest x (held_ends self.new)) }
        ensures none { IfNone result (held_ends self.new ≡ after_empty_pop (held_ends self.old)) }
        ensures cause { IfNone result (WasEmpty (held_ends self.old)) }
        ensures same { SameWorker self.old.own self.new.own × (self.new.reaches ≡ self.old.reaches) }
    {
        let popped = self.own.pop_as::<Popped>();
        if popped.is_none() {
            self.empty_pops = rise(self.empty_pops);
        }
        popped
    }

    /// Steals the oldest task of `victim`'s deque.
    pub(crate) fn steal<R: Wait>(
        &mut self,
        rt: &R,
        thieves: &[Stealer<T, Global, Part<T>, DequeRule>],
        victim: usize,
    ) -> Option<T>
        requires victim { victim < length thieves.now }
        requires reaches { ReachEach thieves.now self.old.reaches.items }
        ensures reaches { ReachEach thieves.now self.new.reaches.items }
        ensures some { IfSome result (λ x.
            held_ends self.new ≡ after_steal victim x (held_ends self.old)) }
        ensures none { IfNone result
            (held_ends self.new ≡ after_failed_steal victim (held_ends self.old)) }
        ensures cause { IfNone result (HadAtMostOne victim (held_ends self.old)) }
        ensures same { self.new.own ≡ self.old.own }
    {
        self.reaches[victim].steal(rt, &thieves[victim])
    }
}
