//! The choice of a worker that owns the flag or waits for it.
ghost use Rattle.std.specs.Prelude.{◌≡◌, ◌<◌, Some};
ghost use Rattle.core_model.specs.Settings.{job_of, HasLeaf};
ghost use Rattle.core_model.specs.Operations.{place_of};
ghost use Rattle.core_model.specs.Tasks.{names};
ghost use Rattle.core_model.specs.Choice.{leaf_named as leaf_at, answer_with, choice_pending, choice_holding};
ghost use Rattle.core_state.specs.Abstraction.{state_of};
ghost use Rattle.core_state.specs.Holds.{hold_view};
ghost use Rattle.core_state.specs.Code.Lookups.{CanChoose};

use crate::hold::Hold;
use crate::state::State;
use batch_history::place_of as place_in;
use core_model::{Event, Receipt, Setting};

impl State {
    /// The event of a worker whose call is pending: it wins the flag if that is free.
    #[tactic(auto, unfolding(crate::specs::Abstraction::state_of))]
    pub(crate) fn choose_pending(&self) -> Option<Event>
        ensures { result ≡ choice_pending (state_of self.now).hold }
    {
        match self.hold {
            None => Some(Event::Win),
            Some(_) => None,
        }
    }

    /// The event that gives the worker `other` the receipt of its leaf's entry in the book.
    #[tactic(auto, unfolding(crate::specs::Abstraction::state_of))]
    fn choose_answer(&self, setting: &Setting, other: u32) -> Option<Event>
        requires looks { CanChoose setting.now self.now }
        requires other_in { other < setting.now.workers }
        requires started { HasLeaf (job_of setting.now).plan ((state_of self.now).task other) }
        ensures { result ≡ answer_with other (place_of (state_of self.now).book
            (leaf_at (job_of setting.now).plan (names ((state_of self.now).task other)))) }
    {
        let leaf = setting.started_leaf(self.tasks[other as usize]);
        let Some(shop) = &self.shop else {
            unreachable!()
        };
        let place = place_in(shop.history().batches(), leaf)?;
        Some(Event::Answer {
            worker: other,
            receipt: Receipt {
                batch: place.batch,
                place: place.place,
                reply: place.entry.reply,
            },
        })
    }

    /// The event of the flag's owner. It looks at each worker in turn, publishes unless it took no call, answers the
    /// workers it took calls from, and then releases the flag.
    #[tactic(auto, unfolding(crate::specs::Abstraction::state_of))]
    #[inline(always)]
    pub(crate) fn choose_holding(&self, setting: &Setting, hold: &Hold) -> Option<Event>
        requires looks { CanChoose setting.now self.now }
        requires held { self.now.hold ≡ Some hold.now }
        ensures { result ≡ choice_holding (job_of setting.now) (state_of self.now) (hold_view hold.now) }
    {
        if hold.looks < setting.workers {
            return Some(Event::Take(hold.looks));
        }
        if !hold.published && hold.has_taken(setting.workers) {
            return Some(Event::Publish);
        }
        match hold.least_owed(setting.workers) {
            None => Some(Event::Release),
            Some(other) => self.choose_answer(setting, other),
        }
    }
}
