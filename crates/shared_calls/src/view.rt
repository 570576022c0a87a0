//! What the slots of a table hold, and what a seat knows.

use std::collections::LinkedList;

/// The content of a slot. A caller's slot holds nothing, its operation or its reply; the last slot holds the structure,
/// with the replies of the batch that it has just served.
#[derive(Drop)]
pub enum Slot<T, O, R> {
    Vacant,
    Posted(O),
    Answered(R),
    Whole(T, Vec<R>),
}

/// A call that was served: its caller, what it asked, and the reply. No value of this type is ever built.
pub struct Entry<O, R> {
    pub caller: u64,
    pub op: O,
    pub reply: R,
}

/// A call that a batch has taken. No value of this type is ever built.
pub struct Asked<O> {
    pub caller: u64,
    pub op: O,
}

/// What a caller asks: it may be absent, and then its slot is at home, or have retired for good. No value of this type
/// is ever built.
pub enum Request<O> {
    Absent,
    Nothing,
    Asks(O),
    Retired,
}

/// What a seat knows. A list of calls is oldest first. No value of this type is ever built.
pub struct View<O, R> {
    /// The callers that the seat stands for, `from` to below `to`: one caller, those not yet split off, those that have
    /// retired, or none (a note).
    pub from: u64,
    pub to: u64,
    /// What each of these callers asks.
    pub request: Request<O>,
    /// For each of these callers, the calls that it made.
    pub made: LinkedList<LinkedList<Entry<O, R>>>,
    /// All calls that had been served when the seat last looked, and further fronts of the list of all calls: those of
    /// the note that it hears, or those that its retired callers had seen.
    pub seen: LinkedList<Entry<O, R>>,
    pub heard: LinkedList<LinkedList<Entry<O, R>>>,
    /// Whether it found that the structure is lost.
    pub lost: bool,
    /// Whether it holds the flag; and then all calls so far, the number of callers looked at, the calls taken, and
    /// those served whose callers it has yet to answer. Where the structure is lost, all calls.
    pub holds: bool,
    pub log: LinkedList<Entry<O, R>>,
    pub looks: u64,
    pub taken: LinkedList<Asked<O>>,
    pub owed: LinkedList<Entry<O, R>>,
}
