//! The laws of the map over any batches.
ghost use Rattle.std.specs.Prelude.{◌≡◌, List, IsPermutation};
ghost use Rattle.rank_nodes.specs.declared.entry.Entry.{Entry};
ghost use Rattle.rank_nodes.specs.Maps.{Ascends};
ghost use Rattle.batched_map.specs.declared.call.MapOp.{MapOp};
ghost use Rattle.batched_map.specs.declared.call.MapCall.{MapCall};
ghost use Rattle.batched_map.specs.Maps.{map_after, map_replies};
ghost use Rattle.batched_map.specs.Batches.{after_batches, replies_to_batches, operations_of, numbered, in_batch_order};

/// Serving batch by batch is serving all their calls one after another.
pub fn batches_are_served_as_one()
    ensures entries { (entries : List Entry) (batches : List (List MapCall))
        → after_batches entries batches ≡ map_after entries (operations_of batches) }
    ensures replies { (entries : List Entry) (batches : List (List MapCall))
        → replies_to_batches entries batches ≡ map_replies entries (operations_of batches) }
{}

/// In batch order a batch has each of its calls once.
pub fn batch_order_has_each_call()
    ensures { (operations : List MapOp) → IsPermutation (numbered 0 operations) (in_batch_order operations) }
{}
