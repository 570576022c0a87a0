//! What a use of a name means, and that spellings tell names apart.
ghost use Rattle.std.specs.Prelude.{◌≡◌, ◌≢◌, ℕ, ◌≤◌, List, length, true, Some, None};
ghost use Rattle.std.specs.List.{AllByRecursion};
ghost use Rattle.limits.specs.declared.TheConstants.{MOST_NAME_BYTES};
ghost use Rattle.job_names.specs.declared.name.Name.{Name};
ghost use Rattle.job_names.specs.Names.{is_spelled, name_of, spelling};
ghost use Rattle.job_names.specs.Scopes.{Scope, IsLastNamed, last_of, lets_shown};

/// A use of a name means the last of the lets shown that has the name; where it means none, no let shown has it.
pub fn uses_see_the_last_let_shown()
    ensures some { (name : Name) (scope : Scope) (number : ℕ)
        → last_of name (lets_shown scope) ≡ Some number → IsLastNamed name number (lets_shown scope) }
    ensures none { (name : Name) (scope : Scope)
        → last_of name (lets_shown scope) ≡ None → AllByRecursion (λ bound. bound.name ≢ name) (lets_shown scope) }
{}

/// The name of a text of at most `MOST_NAME_BYTES` bytes, as each that is spelled as a name, has this text as its
/// spelling. So names with zeros behind their bytes are equal where their spellings are.
pub fn spellings_tell_names_apart()
    ensures spelled { (text : List ℕ) → is_spelled text ≡ true → length text ≤ MOST_NAME_BYTES }
    ensures spelling { (text : List ℕ) → length text ≤ MOST_NAME_BYTES → spelling (name_of text) ≡ text }
    ensures apart { (left right : Name) → left ≡ name_of (spelling left) → right ≡ name_of (spelling right)
        → spelling left ≡ spelling right → left ≡ right }
{}
