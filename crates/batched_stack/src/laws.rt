//! Laws on the stack's rooms and on how many pieces a batch has.
ghost use Rattle.std.specs.Prelude.{◌≡◌, ◌≤◌, ◌*◌, List, length};
ghost use Rattle.seq_objects.specs.declared.call.Call.{Call};
ghost use Rattle.seq_objects.specs.Serial.{of_stack};
ghost use Rattle.batched_stack.specs.declared.piece.Piece.{Piece};
ghost use Rattle.batched_stack.specs.Stripes.{StackView};
ghost use Rattle.batched_stack.specs.Copies.{BatchCounts, FollowRule, copied_items, call_count, first_rooms};
ghost use Rattle.batched_stack.specs.Pieces.{Cut, piece_count};

/// The amortized cost of changing rooms: over any list of batches from the empty stack, all changes of room together
/// copy at most two items for each call.
pub fn changes_of_room_copy_little()
    ensures { (batches : List BatchCounts) → FollowRule 0 first_rooms batches
        → copied_items 0 first_rooms batches ≤ 2 * call_count batches }
{}

/// The stack's items before a batch and the batch's calls determine how many pieces it is cut into.
pub fn cut_fixes_the_number_of_pieces()
    ensures { (stack : StackView) (calls : List Call) (pieces : List Piece) → Cut stack calls pieces
        → length pieces ≡ piece_count (of_stack stack.items) calls }
{}
