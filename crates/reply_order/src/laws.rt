//! What the order of the calls comes to, as the contract of an empty function.
ghost use Rattle.std.specs.Prelude.{◌≡◌, ℕ, List, length, slice_index, slice_index_or, zip, IsPermutation, ◌<◌};
ghost use Rattle.reply_order.specs.Order.{AreInOrder};

/// Where each served operation is the one at its place, the operations with their replies in the order of the calls are
/// those with their replies in the order served, mixed.
pub fn calls_keep_their_replies<O, R>()
    ensures { (places : List ℕ) (ops served : List O) (replies ordered : List R) → AreInOrder places replies ordered → length ops ≡ length places
        → length served ≡ length places → ((k : ℕ) (d : O) → k < length places → slice_index_or served k d ≡ slice_index_or ops (slice_index places k) d)
        → IsPermutation (zip ops ordered) (zip served replies) }
{}
