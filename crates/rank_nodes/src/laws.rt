//! Laws of maps as lists of entries; each is the contract of an empty function.
ghost use Rattle.std.specs.Prelude.{ℕ, List};
ghost use Rattle.keyed_pieces.specs.Keyed.{AreBelow, AreFrom};
ghost use Rattle.rank_nodes.specs.declared.entry.Entry.{Entry};
ghost use Rattle.rank_nodes.specs.Maps.{key_of, AllBelow};

/// If all keys of `low` are below a key and no key of `high` is, then each key of `low` is below each key of `high`:
/// the two can be concatenated.
#[tactic(auto, using(crate::proofs::EntryLemmas::Sides::apart))]
pub fn sides_of_a_key_are_apart()
    ensures { (key : ℕ) (low high : List Entry) → AreBelow key_of key low → AreFrom key_of key high → AllBelow low high }
{}
