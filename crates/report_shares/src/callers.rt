//! The leaves that call: those that stand in a book.
ghost use Rattle.std.specs.Prelude.{◌≡◌, ◌||◌, ℕ, OnOk, IfOk};
ghost use Rattle.std.specs.Ordering.{nat_cmp};
ghost use Rattle.std.specs.BTreeSet.{contains};
ghost use Rattle.report_shares.specs.Shares.{calls};
ghost use Rattle.report_shares.specs.Code.{is_among};

use batch_history::{Batch, Entry};
use std::alloc::{AllocError, Global};
use std::collections::BTreeSet;

/// Adds the leaves of entries.
fn add_leaves(callers: &mut BTreeSet<u32>, entries: &[Entry]) -> Result<(), AllocError>
    ensures { OnOk result ((leaf : ℕ) → contains nat_cmp callers.new leaf
        ≡ (contains nat_cmp callers.old leaf || is_among leaf entries.now)) }
{
    for entry in entries {
        callers.insert(entry.leaf)?;
    }
    Ok(())
}

/// The leaves of a book.
pub(crate) fn callers_of(alloc: Global, book: &[Batch]) -> Result<BTreeSet<u32>, AllocError>
    ensures { IfOk result (λ callers. (leaf : ℕ) → contains nat_cmp callers leaf ≡ calls book.now leaf) }
{
    let mut callers = BTreeSet::new(alloc);
    for batch in book {
        add_leaves(&mut callers, batch.entries())?;
    }
    Ok(callers)
}
