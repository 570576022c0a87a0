//! The laws of the queue over any batches.
ghost use Rattle.std.specs.Prelude.{◌≡◌, ◌++◌, ℕ, List};
ghost use Rattle.batched_queue.specs.declared.call.FifoCall.{FifoCall};
ghost use Rattle.batched_queue.specs.Fifo.{fifo_after, fifo_replies, numbers_put, numbers_got};
ghost use Rattle.batched_queue.specs.Batches.{after_batches, replies_to_batches, operations_of};

/// Serving batch by batch is serving all their calls one after another.
pub fn batches_are_served_as_one()
    ensures items { (queue : List ℕ) (batches : List (List FifoCall))
        → after_batches queue batches ≡ fifo_after queue (operations_of batches) }
    ensures replies { (queue : List ℕ) (batches : List (List FifoCall))
        → replies_to_batches queue batches ≡ fifo_replies queue (operations_of batches) }
{}

/// Over any batches, the numbers got, followed by the numbers left, are those of the queue before, followed by the
/// numbers put: none is lost, none is got twice, and they leave in the order in which they came.
pub fn numbers_leave_in_the_order_in_which_they_came()
    ensures { (queue : List ℕ) (batches : List (List FifoCall))
        → numbers_got (replies_to_batches queue batches) ++ after_batches queue batches
        ≡ queue ++ numbers_put (operations_of batches) }
{}
