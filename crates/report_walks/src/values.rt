//! Whether the rows have the values of the job's work and of the replies.
ghost use Rattle.std.specs.Prelude.{◌≡◌, ◌↔◌, ◌<◌, length, slice_get, Some, ℕ, IsTrue};
ghost use Rattle.std.specs.Option.{ForSome};
ghost use Rattle.std.specs.List.{AllByRecursion};
ghost use Rattle.seq_objects.specs.Spin.{spin_of};
ghost use Rattle.seq_objects.specs.declared.act.Act.TheVariants.{Work};
ghost use Rattle.sp_order.specs.Precedence.{leaf_count};
ghost use Rattle.sp_order.specs.Sources.{TakeReplies};
ghost use Rattle.batch_history.specs.Book.{flat};
ghost use Rattle.batch_history.specs.Lawful.{HasValues};
ghost use Rattle.report_walks.specs.Parts.{of_calls};
ghost use Rattle.report_walks.specs.Code.Calls.{HasReply};

use crate::steps::spun;
use batch_history::{Batch, Entry, Row};
use seq_objects::{Act, value};
use sp_order::Job;

/// Whether each leaf of work has the value of its work.
fn have_work(acts: &[Act], rows: &[Row]) -> bool
    requires { length rows.now ≡ length acts.now }
    ensures { IsTrue result ↔ ((leaf steps : ℕ) → slice_get acts.now leaf ≡ Some (Work steps)
        → ForSome (slice_get rows.now leaf) (λ row. row.value ≡ spin_of steps)) }
{
    for (leaf, act) in acts.iter().enumerate() {
        if let Act::Work(steps) = act {
            if rows[leaf].value != u64::from(spun(*steps)) {
                return false;
            }
        }
    }
    true
}

/// Whether the row of each entry's leaf has the value of its reply.
fn have_replies(rows: &[Row], entries: &[Entry]) -> bool
    requires { AllByRecursion (λ entry. entry.leaf < length rows.now) entries.now }
    ensures { IsTrue result ↔ AllByRecursion (HasReply rows.now) entries.now }
{
    for entry in entries {
        if rows[entry.leaf as usize].value != value(entry.reply) {
            return false;
        }
    }
    true
}

/// Whether each leaf of work has the value of its work, and each one that calls that of its reply. The leaves of the job
/// take replies alone, so that a leaf of work computes on its own number. Work of any number of steps takes 32 turns of
/// a loop at most.
///
/// Memory: none.
pub fn has_values(job: &Job, book: &[Batch], rows: &[Row]) -> bool
    requires rows { length rows.now ≡ leaf_count job.now.shape }
    requires replies { TakeReplies job.now.acts job.now.sources }
    requires leaves { AllByRecursion (λ entry. entry.leaf < length rows.now) (flat book.now) }
    ensures { IsTrue result ↔ HasValues job.now (of_calls book.now rows.now) }
{
    if !have_work(job.acts(), rows) {
        return false;
    }
    for batch in book {
        if !have_replies(rows, batch.entries()) {
            return false;
        }
    }
    true
}
