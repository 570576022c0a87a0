//! The law of ranks and indices, as the contract of an empty function.
ghost use Rattle.std.specs.Prelude.{◌≡◌, ◌↔◌, ◌≤◌, ℕ, List, IsSome, Some, None, length};
ghost use Rattle.rank_nodes.specs.declared.entry.Entry.{Entry};
ghost use Rattle.rank_nodes.specs.Maps.{Ascends, value_at, rank_of, key_at};

/// The key at an index is the one key with exactly so many keys below it; there is one where there are more keys.
pub fn keys_stand_at_their_ranks()
    ensures found { (entries : List Entry) (i key : ℕ) → Ascends entries
        → (key_at i entries ≡ Some key) ↔ (IsSome (value_at key entries) × (rank_of key entries ≡ i)) }
    ensures none { (entries : List Entry) (i : ℕ) → (key_at i entries ≡ None) ↔ (length entries ≤ i) }
{}
