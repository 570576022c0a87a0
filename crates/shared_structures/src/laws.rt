//! What the serial objects come to, each law as the contract of an empty function.
ghost use Rattle.std.specs.Prelude.{◌≡◌, ℕ, ◌+◌, ◌%◌, ◌^◌, List, ◌∷◌, ◌++◌, sum_by};
ghost use Rattle.shared_calls.specs.declared.view.Entry.{Entry as EntryOf};
ghost use Rattle.shared_calls.specs.Logs.{IsSerial};
ghost use Rattle.shared_structures.specs.Counters.{counter};

/// The reply of an addition is the sum of all addends up to and including its own, modulo 2^64.
pub fn counter_replies_its_sum()
    ensures { (before : List (EntryOf ℕ ℕ)) (call : EntryOf ℕ ℕ) (later : List (EntryOf ℕ ℕ)) → IsSerial counter (before ++ call ∷ later)
        → call.reply ≡ (sum_by (λ e. e.op) before + call.op) % 2 ^ 64 }
{}
