//! The hold: the launcher's progress through its batch while it owns the flag.
ghost use Rattle.std.specs.Prelude.{◌≡◌, ◌<◌, ◌≤◌, Some, true, false};
ghost use Rattle.limits.specs.declared.TheConstants.{MOST_WORKERS};
ghost use Rattle.core_model.specs.State.{put};
ghost use Rattle.core_model.specs.Events.{new_hold, looked as hold_looked, published as hold_published, answered as hold_answered};
ghost use Rattle.core_model.specs.Choice.{some_below, least_below, is_owed};
ghost use Rattle.core_state.specs.Places.{at};
ghost use Rattle.core_state.specs.Holds.{hold_view};

use limits::MOST_WORKERS;

/// The progress of the flag's owner through its batch. `taken` and `answered` are indexed by worker.
#[derive(Clone, Copy)]
pub struct Hold {
    /// The worker that owns the flag.
    pub worker: u32,
    /// The number of workers it has looked at so far, in ascending order from worker 0.
    pub looks: u32,
    /// The workers whose calls are in the batch.
    pub taken: [bool; MOST_WORKERS as usize],
    /// The workers of the batch that have their receipts.
    pub answered: [bool; MOST_WORKERS as usize],
    /// Whether the batch has been served.
    pub published: bool,
}

/// Sets one item to `true`.
fn mark(list: &mut [bool; MOST_WORKERS as usize], place: u32)
    requires { place < MOST_WORKERS }
    ensures { at list.new false ≡ put (at list.old false) place true }
{
    list[place as usize] = true;
}

impl Hold {
    /// The hold of a worker that has just won the flag.
    pub fn of(worker: u32) -> Hold
        ensures { hold_view result ≡ new_hold worker }
    {
        Hold {
            worker,
            looks: 0,
            taken: [false; MOST_WORKERS as usize],
            answered: [false; MOST_WORKERS as usize],
            published: false,
        }
    }

    /// Whether a worker's call was taken and is not answered yet.
    fn is_owed(&self, worker: u32) -> bool
        requires { worker < MOST_WORKERS }
        ensures { result ≡ is_owed (hold_view self.now) worker }
    {
        self.taken[worker as usize] && !self.answered[worker as usize]
    }

    /// Whether a worker's call was taken.
    pub fn has_call_of(&self, worker: u32) -> bool
        requires { worker < MOST_WORKERS }
        ensures { result ≡ (hold_view self.now).taken worker }
    {
        self.taken[worker as usize]
    }

    /// Whether the call of any of the first `workers` workers was taken.
    pub fn has_taken(&self, workers: u32) -> bool
        requires { workers ≤ MOST_WORKERS }
        ensures { result ≡ some_below (hold_view self.now).taken workers }
    {
        for worker in 0..workers {
            if self.has_call_of(worker) {
                return true;
            }
        }
        false
    }

    /// The lowest-numbered worker whose call was taken and is not answered yet.
    pub fn least_owed(&self, workers: u32) -> Option<u32>
        requires { workers ≤ MOST_WORKERS }
        ensures { result ≡ least_below (is_owed (hold_view self.now)) workers }
    {
        for worker in 0..workers {
            if self.is_owed(worker) {
                return Some(worker);
            }
        }
        None
    }

    /// Records a look at the worker `other`; `takes` says whether its call joins the batch.
    pub fn look(&mut self, other: u32, takes: bool)
        requires room { self.old.looks < MOST_WORKERS }
        requires other_in { other < MOST_WORKERS }
        ensures { Some (hold_view self.new) ≡ hold_looked (Some (hold_view self.old)) takes other }
    {
        self.looks += 1;
        if takes {
            mark(&mut self.taken, other);
        }
    }

    /// Records that the batch was served.
    pub fn publish(&mut self)
        ensures { Some (hold_view self.new) ≡ hold_published (Some (hold_view self.old)) }
    {
        self.published = true;
    }

    /// Records that the worker `other` got its receipt.
    pub fn answer(&mut self, other: u32)
        requires { other < MOST_WORKERS }
        ensures { Some (hold_view self.new) ≡ hold_answered (Some (hold_view self.old)) other }
    {
        mark(&mut self.answered, other);
    }
}
