//! What words and their counts come to, as the contracts of empty functions.
ghost use Rattle.std.specs.Prelude.{◌≡◌, ℕ, List, [], ◌∷◌, ◌++◌, true, false, IsPermutation};
ghost use Rattle.std.specs.List.{AllByRecursion};
ghost use Rattle.word_counts.specs.Words.{is_white_space, words_of};
ghost use Rattle.word_counts.specs.Counts.{all_counted, counts_of, CountWords};

/// White space parts the words of a text, and bytes without white space are one word.
pub fn white_space_parts_words()
    ensures parts { (front : List ℕ) (byte : ℕ) (rest : List ℕ) → is_white_space byte ≡ true
        → words_of (front ++ byte ∷ rest) ≡ words_of front ++ words_of rest }
    ensures none { words_of [] ≡ [] }
    ensures one { (byte : ℕ) (bytes : List ℕ) → AllByRecursion (λ b. is_white_space b ≡ false) (byte ∷ bytes)
        → words_of (byte ∷ bytes) ≡ (byte ∷ bytes) ∷ [] }
{}

/// The counts of a text ascend strictly, and have each of its words with the number of its occurrences.
pub fn counts_are_numbers_of_occurrences()
    ensures { (text : List ℕ) → CountWords (words_of text) (counts_of text) }
{}

/// Counts do not depend on the order in which the words are found.
pub fn counts_have_no_order()
    ensures { (words others : List (List ℕ)) → IsPermutation words others → all_counted [] words ≡ all_counted [] others }
{}
