//! Joining forests.
ghost use Rattle.std.specs.Prelude.{◌≡◌, IfOk};
ghost use Rattle.key_sets.specs.Keys.{StrictlyAscends};
ghost use Rattle.keyed_pieces.specs.Ranges.{side_by_side};
ghost use Rattle.forest_cuts.specs.Parts.{keys_of_each};

use std::alloc::{AllocError, Global};
use tree_forest::{Forest, ForestPool};

/// Joins forests whose keys, concatenated, strictly ascend. On `Err`, all keys are lost.
pub fn join_forests(
    alloc: Global,
    parts: Vec<Forest>,
    pool: &mut ForestPool,
) -> Result<Forest, AllocError>
    requires { StrictlyAscends (side_by_side (keys_of_each parts.items)) }
    ensures { IfOk result (λ forest. forest.keys ≡ side_by_side (keys_of_each parts.items)) }
{
    let mut parts = parts.into_iter();
    let mut forest = match parts.next() {
        Some(first) => first,
        None => Forest::new(alloc),
    };
    for part in parts {
        forest.append(part, pool)?;
    }
    Ok(forest)
}
