//! Flaws: what a report fails by.

/// What a text fails by as a report of a job, in the order in which they are looked for.
#[derive(Clone, Copy, PartialEq, Eq)]
pub enum Flaw {
    /// The text is not that of a report.
    Text,
    /// The leaves do not have a row each, or the ticks of the rows are not each number once.
    Rows,
    /// A leaf starts before one that precedes it has ended, or while its worker runs another one.
    Order,
    /// The calls are not those of the job's leaves, under the replies of the report.
    Calls,
    /// A reply is not that of the serial objects.
    Replies,
    /// A call stands in a batch no later than that of a call whose leaf had ended before.
    Ticks,
    /// A batch is not in batch order, or has two calls of one worker.
    Batches,
    /// The value of a leaf is not that of its work or of its reply.
    Values,
}
