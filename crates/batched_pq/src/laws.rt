//! The law on how many pieces the queue cuts a batch into.
ghost use Rattle.std.specs.Prelude.{◌≡◌, ℕ, List, length};
ghost use Rattle.seq_objects.specs.declared.call.Call.{Call};
ghost use Rattle.seq_objects.specs.Serial.{of_bag};
ghost use Rattle.batched_pq.specs.declared.piece.Piece.{Piece};
ghost use Rattle.batched_pq.specs.Pieces.{Cut, piece_count};

/// Every batch is cut into eight pieces, one for each shard.
pub fn cut_fixes_the_number_of_pieces()
    ensures { (bag : List ℕ) (calls : List Call) (pieces : List Piece) → Cut bag calls pieces
        → length pieces ≡ piece_count (of_bag bag) calls }
{}
