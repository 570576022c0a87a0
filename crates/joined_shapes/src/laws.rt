//! The laws of open blocks. Each is the contract of a function that does nothing.
ghost use Rattle.std.specs.Prelude.{◌≡◌, ℕ, ◌<◌, true, false};
ghost use Rattle.job_lang.specs.declared.join.Order.{Order};
ghost use Rattle.joined_shapes.specs.Blocks.{Blocks, IsNested, closed, is_shown, opened, outside, shape_of, with_leaf};
ghost use Rattle.sp_order.specs.Precedence.{IsBefore, leaf_count};

/// Open blocks stay nested, and those that are nested come to a shape of all their leaves.
pub fn blocks_stay_nested()
    ensures outside { IsNested outside }
    ensures leaf { (blocks : Blocks) → IsNested blocks → IsNested (with_leaf blocks) }
    ensures opened { (blocks : Blocks) (order : Order) → IsNested blocks → IsNested (opened blocks order) }
    ensures closed { (blocks : Blocks) → IsNested blocks → IsNested (closed blocks) }
    ensures leaves { (blocks : Blocks) → IsNested blocks → leaf_count (shape_of blocks) ≡ blocks.leaves }
{}

/// What is before what stays so, whatever is added; and the leaves that are shown are exactly those that are before the
/// leaf that is added next.
pub fn shown_leaves_are_before()
    ensures leaf { (blocks : Blocks) (u v : ℕ) → IsBefore (shape_of blocks) u v
        → IsBefore (shape_of (with_leaf blocks)) u v }
    ensures opened { (blocks : Blocks) (order : Order) → shape_of (opened blocks order) ≡ shape_of blocks }
    ensures closed { (blocks : Blocks) → shape_of (closed blocks) ≡ shape_of blocks }
    ensures shown { (blocks : Blocks) (u : ℕ) → IsNested blocks → u < blocks.leaves → is_shown blocks u ≡ true
        → IsBefore (shape_of (with_leaf blocks)) u blocks.leaves }
    ensures hidden { (blocks : Blocks) (u : ℕ) → IsNested blocks → is_shown blocks u ≡ false
        → IsBefore (shape_of (with_leaf blocks)) u blocks.leaves → ⊥ }
{}
