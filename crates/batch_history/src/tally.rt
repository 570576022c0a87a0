//! Tallies: the totals of a run's calls and replies.
ghost use Rattle.std.specs.Prelude.{◌≡◌, ◌<◌, ◌^◌, [], ◌∷◌};
ghost use Rattle.batch_history.specs.Book.{flat};
ghost use Rattle.batch_history.specs.Tally.{number_of, yes_of, tally_of};
ghost use Rattle.batch_history.specs.Code.Tallies.{with_entries, Fits};

use crate::batch::Entry;
use crate::history::History;
use seq_objects::{Op, Reply};

/// The totals of a run's calls.
#[derive(Clone, Copy)]
pub struct Tally {
    /// The number of calls.
    pub calls: u64,
    /// The reply of the last add to a counter, or 0 without one.
    pub counter: u64,
    /// The number of pushes on stacks.
    pub pushed: u64,
    /// The sum of the numbers that pops of stacks replied.
    pub popped: u64,
    /// The number of inserts into trees that replied yes.
    pub keys: u64,
    /// The number of finds in trees that replied yes.
    pub found: u64,
    /// The number of inserts into queues.
    pub inserted: u64,
    /// The sum of the numbers that takes from queues replied.
    pub taken: u64,
}

/// The number in a reply, or 0 if it has none.
fn number(reply: Reply) -> u64
    ensures { result ≡ number_of reply }
{
    match reply {
        Reply::Number(number) => number,
        Reply::Unit | Reply::Empty | Reply::Yes | Reply::No => 0,
    }
}

/// 1 for the reply yes, else 0.
fn count_yes(reply: Reply) -> u64
    ensures { result ≡ yes_of reply }
{
    match reply {
        Reply::Yes => 1,
        Reply::Number(_) | Reply::Unit | Reply::Empty | Reply::No => 0,
    }
}

impl Tally {
    /// The tally of a history.
    ///
    /// Memory: none.
    pub fn of(history: &History) -> Tally
        requires popped { (tally_of (flat history.now)).popped < 2 ^ 64 }
        requires taken { (tally_of (flat history.now)).taken < 2 ^ 64 }
        ensures { result ≡ tally_of (flat history.now) }
    {
        let mut tally = Tally {
            calls: 0,
            counter: 0,
            pushed: 0,
            popped: 0,
            keys: 0,
            found: 0,
            inserted: 0,
            taken: 0,
        };
        for batch in history.batches() {
            tally.add_batch(batch.entries());
        }
        tally
    }

    fn add_batch(&mut self, entries: &[Entry])
        requires { Fits (with_entries self.old entries.now) }
        ensures { self.new ≡ with_entries self.old entries.now }
    {
        for entry in entries {
            self.add(*entry);
        }
    }

    fn add(&mut self, entry: Entry)
        requires { Fits (with_entries self.old (entry ∷ [])) }
        ensures { self.new ≡ with_entries self.old (entry ∷ []) }
    {
        self.calls += 1;
        match entry.op {
            Op::CounterAdd(..) => self.counter = number(entry.reply),
            Op::Push(..) => self.pushed += 1,
            Op::Pop(_) => self.popped += number(entry.reply),
            Op::TreeInsert(..) => self.keys += count_yes(entry.reply),
            Op::TreeFind(..) => self.found += count_yes(entry.reply),
            Op::PqInsert(..) => self.inserted += 1,
            Op::PqTake(_) => self.taken += number(entry.reply),
            _ => {}
        }
    }
}
