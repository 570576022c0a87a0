//! The laws of reading decimals, each stated as the contract of an empty function.
ghost use Rattle.std.specs.Prelude.{◌≡◌, ℕ, ◌<◌, ◌≤◌, ◌^◌, ◌↔◌, List, Some};
ghost use Rattle.std.specs.Fmt.{decimal};
ghost use Rattle.decimals.specs.Words.{number_between};
ghost use Rattle.decimals.specs.Texts.{IsDecimalThen};

/// `number_between` reads a number from exactly one word, its decimal: reading is the inverse of writing.
pub fn one_word_is_read_as_a_number()
    ensures { (least most number : ℕ) (word : List ℕ) → most < 2 ^ 64 → least ≤ number → number ≤ most
        → (number_between least most word ≡ Some number) ↔ (word ≡ decimal number) }
{}

/// A text can be split into a decimal and a rest without a leading digit in at most one way.
pub fn decimals_are_read_one_way()
    ensures { (most : ℕ) (text : List ℕ) (m n : ℕ) (rest rest' : List ℕ) → most < 2 ^ 64
        → IsDecimalThen most text m rest → IsDecimalThen most text n rest' → (m ≡ n) × (rest ≡ rest') }
{}
