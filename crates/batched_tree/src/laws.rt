//! The law on how many pieces the set cuts a batch into.
ghost use Rattle.std.specs.Prelude.{◌≡◌, ℕ, List, length};
ghost use Rattle.seq_objects.specs.declared.call.Call.{Call};
ghost use Rattle.seq_objects.specs.Serial.{of_set};
ghost use Rattle.batched_tree.specs.declared.piece.Piece.{Piece};
ghost use Rattle.batched_tree.specs.Pieces.{Cut, piece_count};

/// The calls of a batch alone determine how many pieces it is cut into.
pub fn cut_fixes_the_number_of_pieces()
    ensures { (set : List ℕ) (calls : List Call) (pieces : List Piece) → Cut set calls pieces
        → length pieces ≡ piece_count (of_set set) calls }
{}
