//! The laws of places and of rows, each as the contract of a function that does nothing.
ghost use Rattle.std.specs.Prelude.{◌≡◌, ℕ, List};
ghost use Rattle.std.specs.List.{AllByRecursion};
ghost use Rattle.sp_order.specs.Jobs.{JobValue};
ghost use Rattle.job_syntax.specs.Faults.{words_of};
ghost use Rattle.job_syntax.specs.Words.{words_on_lines};
ghost use Rattle.job_lang.specs.Language.{IsJobOf};
ghost use Rattle.job_lang.specs.Places.{placed_leaves};
ghost use Rattle.leaf_places.specs.Places.{Place, ArePlacesIn, StandsIn};
ghost use Rattle.leaf_places.specs.Rows.{AreRowsOf};

/// The words of a leaf's item stand in the text where its place says: the line of the place is that of the first of
/// them.
pub fn leaves_stand_at_their_places()
    ensures { (text : List ℕ) (job : JobValue) (is : IsJobOf text job)
        → AllByRecursion (StandsIn (words_of (words_on_lines text))) (placed_leaves is.items) }
{}

/// A text has one list of places and one list of rows at most.
pub fn texts_have_one_list_of_rows()
    ensures places { (text : List ℕ) (places places' : List Place)
        → ArePlacesIn text places → ArePlacesIn text places' → places ≡ places' }
    ensures rows { (text rows rows' : List ℕ) (job job' : JobValue)
        → AreRowsOf text job rows → AreRowsOf text job' rows' → rows ≡ rows' }
{}
