//! What a pass knows. No value of these types exists at run time: they are for contracts and proofs.

use crate::slot::OpRecord;
use batch_history::Entry;
use core_model::{CallState, Event, Receipt, Task};
use seq_objects::Call;
use sp_order::Job;
use std::collections::LinkedList;

/// A call that a pass has left, with its receipt.
#[derive(Clone, Copy)]
pub struct LeftCall {
    pub call: OpRecord,
    pub receipt: Receipt,
}

/// A look or a try that did not find what it was for, and so left its word as it was.
#[derive(Clone, Copy)]
pub struct Miss {
    /// The index of the word in the table, and the number found there.
    pub word: u64,
    pub found: u64,
    /// The moment of the look: the length of the trace then, and how many of its events were the pass's own.
    pub moment: u64,
    pub events: u64,
}

/// What the flag's holder knows of its hold.
pub struct HoldView {
    /// The number of workers looked at, in worker order from 0.
    pub looks: u64,
    /// The status that each look found, oldest first.
    pub found: LinkedList<u64>,
    /// The calls taken, oldest first.
    pub taken: LinkedList<Call>,
    /// The workers answered, oldest first.
    pub answered: LinkedList<u64>,
    /// The workers taken and not answered, in the order in which they were taken.
    pub owed: LinkedList<u64>,
    pub published: bool,
    /// All batches: those that the win found, and the published one.
    pub book: LinkedList<LinkedList<Entry>>,
}

/// What contracts see of a pass: its worker, what it knows, and what it has done. Each list is oldest first.
pub struct PassView {
    /// The worker's number; for the first seat, the lowest number that is not yet split off.
    pub worker: u64,
    pub task: Task,
    pub call: CallState,
    /// The present hold, if the pass has the flag, and the last hold as it was when released.
    pub hold: Option<HoldView>,
    pub last: Option<HoldView>,
    /// The numbers of successful wins, of refused wins and of refused leaves.
    pub wins: u64,
    pub refused_wins: u64,
    pub refused_leaves: u64,
    /// The numbers of looks at the stop word, of looks that found it set, and of sets of it.
    pub stop_looks: u64,
    pub stops_found: u64,
    pub stops: u64,
    /// The value of the task's source that `source_value` told. A new task forgets it.
    pub told: Option<u64>,
    /// The call posted last.
    pub posted: Option<OpRecord>,
    /// The calls left, with their receipts.
    pub left: LinkedList<LeftCall>,
    /// The prefix of the book that the pass has seen: the whole book as of its latest leave or release.
    pub book_seen: LinkedList<LinkedList<Entry>>,
    /// The answers of `since` (numbers of published batches): the greatest ever, the greatest before the latest post
    /// and the least after it; and the answer of the first step after the latest post, if that step was a `since`.
    pub greatest: u64,
    pub before: u64,
    pub after: Option<u64>,
    pub first_since: Option<u64>,
    /// The number of successful claims and their nodes, the nodes of refused claims, and the nodes opened.
    pub claims: u64,
    pub claimed: LinkedList<u64>,
    pub refused_nodes: LinkedList<u64>,
    pub opened: LinkedList<u64>,
    /// The core events that the steps of this pass made.
    pub events: LinkedList<Event>,
}

/// The view of a seat: that of its pass, and what the table's rule needs beside it.
pub struct View {
    pub own: PassView,
    /// The end of the range of worker numbers, `own.worker` to below `to`. A pass has one number; the first seat has
    /// all not yet split off.
    pub to: u64,
    /// The numbers of workers and nodes, and the batches that the book has room for: one for each leaf that calls.
    pub workers: u64,
    pub nodes: u64,
    pub room: u64,
    /// The job. With the task it determines which event a step is.
    pub job: Job,
    /// Whether the pass has taken its worker's record slot from the table, as its first step.
    pub enrolled: bool,
    /// Whether a look has found the root done, and the number of looks at the root.
    pub saw_done: bool,
    pub root_looks: u64,
    /// The misses, the newest first: each refused claim, win or leave, each take that took no call, each look that found
    /// the root not done, and each that found the stop word not set.
    pub misses: LinkedList<Miss>,
    /// The moment at which the pass first set the stop word, if it has.
    pub stopped_at: Option<u64>,
    /// The number of calls of `since`.
    pub since_looks: u64,
    /// Whether the latest step was a post.
    pub just_posted: bool,
}
