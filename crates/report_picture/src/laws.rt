//! The laws of the picture, each stated as the contract of an empty function.
ghost use Rattle.std.specs.Prelude.{◌≡◌, ℕ, List, length, true};
ghost use Rattle.sp_order.specs.Jobs.{JobValue};
ghost use Rattle.batch_history.specs.Lawful.{Lawful};
ghost use Rattle.batch_history.specs.declared.report.Report.{Report};
ghost use Rattle.report_reader.specs.Texts.{HasNamedText, Named};
ghost use Rattle.report_picture.specs.Markup.{Markup, text_of};
ghost use Rattle.report_picture.specs.Elements.{Elements};
ghost use Rattle.report_picture.specs.WellFormed.{AreContents, IsWellFormed};
ghost use Rattle.report_picture.specs.Names.{NamesDiffer};
ghost use Rattle.report_picture.specs.Boxes.{span_of, scale_of, boxes_of};
ghost use Rattle.report_picture.specs.Picture.{has_boxes, picture};
ghost use Rattle.report_picture.specs.Shown.{IsSvg, ShowsBoxes};
ghost use Rattle.report_picture.specs.Meaning.{HasBoxes, KeepsApart, NumbersTicks, NumbersFirstTicks, HasBrackets, KeepsBrackets};

use report_reader::laws::texts_have_one_wording;

/// Each row has exactly one box, in its worker's lane, from its start to its end.
pub fn rows_have_one_box_each()
    ensures { (names : List (List ℕ)) (report : Report) → HasBoxes names report }
{}

/// The boxes in one lane of a lawful report do not overlap.
pub fn lawful_boxes_are_apart()
    ensures { (job : JobValue) (workers : ℕ) (names : List (List ℕ)) (report : Report)
        → Lawful job workers report → KeepsApart names report }
{}

/// No tick is numbered that the leaves do not have, beside boxes and beside columns.
pub fn numbered_ticks_are_of_leaves()
    ensures boxes { (leaves : ℕ) → NumbersTicks leaves }
    ensures columns { (width leaves : ℕ) → NumbersFirstTicks width leaves }
{}

/// Each entry stands under exactly one bracket, that of its batch, at its own place.
pub fn entries_have_one_bracket_each()
    ensures some { (report : Report) → HasBrackets report }
    ensures one { (report : Report) → KeepsBrackets report }
{}

/// The text of each markup whose attributes have different names is well-formed, and so is each picture. The bytes of a
/// text determine its elements.
pub fn pictures_are_well_formed()
    ensures markup { (markup : Markup) → NamesDiffer markup → IsWellFormed (text_of markup) }
    ensures picture { (names : List (List ℕ)) (report : Report) → IsWellFormed (picture names report) }
    ensures one { (text : List ℕ) (elements elements' : Elements)
        → AreContents text elements → AreContents text elements' → elements ≡ elements' }
{}

/// A reader of XML finds in each picture one element `svg` and nothing beside it, and where boxes are drawn, in their
/// group one `rect` for each box, with the four numbers of the box, and no other.
pub fn pictures_show_their_boxes()
    ensures one { (names : List (List ℕ)) (report : Report) (elements : Elements)
        → AreContents (picture names report) elements → IsSvg elements }
    ensures boxes { (names : List (List ℕ)) (report : Report) (elements : Elements) → has_boxes report ≡ true
        → AreContents (picture names report) elements
        → ShowsBoxes (boxes_of names report) (scale_of (span_of (length report.rows))) elements }
{}

/// Reports and names that have one text have one picture.
pub fn texts_have_one_picture()
    ensures { (text : List ℕ) (named named' : Named) → HasNamedText text named → HasNamedText text named'
        → picture named.names named.report ≡ picture named'.names named'.report }
{
    texts_have_one_wording();
}
