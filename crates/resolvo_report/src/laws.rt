//! Laws of all reports, for the crates above.

ghost use Rattle.std.specs.Prelude.{◌≡◌, ℕ};
ghost use Rattle.resolvo_report.specs.Value.{Report};
ghost use Rattle.resolvo_report.specs.Text.{report_text};
ghost use Rattle.resolvo_report.specs.Grammar.{IsReport, IsOutsideAt};

/// A text is the text of one report: reading gives back the written report.
pub fn text_is_one_report()
    ensures { (a b : Report) → IsReport a → IsReport b → report_text a ≡ report_text b → a ≡ b }
{}

/// Each line of a report's text is in the grammar.
pub fn reports_are_read()
    ensures { (r : Report) (n : ℕ) → IsReport r → IsOutsideAt (report_text r) n → ⊥ }
{}
