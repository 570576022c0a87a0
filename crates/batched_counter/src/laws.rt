//! The law on how many pieces the counter cuts a batch into.
ghost use Rattle.std.specs.Prelude.{◌≡◌, ℕ, List, length};
ghost use Rattle.seq_objects.specs.declared.call.Call.{Call};
ghost use Rattle.seq_objects.specs.Serial.{of_counter};
ghost use Rattle.batched_counter.specs.declared.piece.Piece.{Piece};
ghost use Rattle.batched_counter.specs.Pieces.{Cut, piece_count};

/// The calls of a batch alone determine how many pieces it is cut into.
pub fn cut_fixes_the_number_of_pieces()
    ensures { (number : ℕ) (calls : List Call) (pieces : List Piece) → Cut number calls pieces
        → length pieces ≡ piece_count (of_counter number) calls }
{}
