//! Cutting a forest at many keys.
ghost use Rattle.std.specs.Prelude.{◌≡◌, IfOk};
ghost use Rattle.keyed_pieces.specs.Ranges.{ranges};
ghost use Rattle.forest_cuts.specs.Parts.{keys_of_each};

use std::alloc::{AllocError, Global};
use tree_forest::{Forest, ForestPool, Remaining};

/// Cuts a forest into one for each range of keys, where `starts` are the first keys of all ranges but the first.
/// Subtrees beside the paths to the starts move whole. On `Err`, all keys are lost.
pub fn cut_below_each(
    alloc: Global,
    forest: Forest,
    starts: &[u32],
    pool: &mut ForestPool,
) -> Result<Vec<Forest>, AllocError>
    ensures { IfOk result (λ parts. keys_of_each parts.items ≡ ranges (λ key. key) starts.now forest.keys) }
{
    let mut parts = Vec::with_capacity(alloc, starts.len() + 1)?;
    let mut rest = Remaining::new(forest);
    for start in starts {
        parts.push(rest.split_off_below(*start, pool)?)?;
    }
    parts.push(rest.into_forest())?;
    Ok(parts)
}
