//! The laws of reading reports, each stated as the contract of an empty function.
ghost use Rattle.std.specs.Prelude.{◌≡◌, ◌<◌, ◌^◌, ℕ, List, [], length};
ghost use Rattle.sp_order.specs.Jobs.{JobValue, IsJob};
ghost use Rattle.batch_history.specs.declared.report.Report.{Report};
ghost use Rattle.report_reader.specs.Texts.{HasText, HasNamedText, Named, AreAlike};
ghost use Rattle.report_reader.specs.Stops.{HasHead, HasLines, StopsAt};

/// No two raw reports of a job have one text.
pub fn texts_have_one_report()
    ensures { (job : JobValue) (text : List ℕ) (report report' : Report) → IsJob job
        → HasText job text report → HasText job text report' → report ≡ report' }
{}

/// A raw report of a job needs no job: with the names of the job it has its text. Reports and names that have one text
/// differ by the numbers of their objects alone.
pub fn texts_have_one_wording()
    ensures named { (job : JobValue) (text : List ℕ) (report : Report) → IsJob job → HasText job text report
        → HasNamedText text (record { names = job.names; report = report }) }
    ensures alike { (text : List ℕ) (named named' : Named)
        → HasNamedText text named → HasNamedText text named' → AreAlike named named' }
{}

/// A text stops being that of a report at one line. The text of a report is a head line and lines that follow one
/// another, to its end.
pub fn texts_stop_at_one_line()
    ensures one { (text : List ℕ) (line line' : ℕ) → StopsAt text line → StopsAt text line' → line ≡ line' }
    ensures reports { (text : List ℕ) (named : Named) → length text < 2 ^ 64 → HasNamedText text named
        → (behind rest : List ℕ) (count : ℕ) → HasHead text behind → HasLines behind count rest → rest ≡ [] }
{}
