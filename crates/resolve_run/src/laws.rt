//! Theorems about the answer to two texts, for callers whose proofs need them. Each is a function
//! that does nothing.
ghost use Rattle.std.specs.Prelude.{◌≡◌, ◌↔◌, ℕ, List, Option, Some};
ghost use Rattle.resolvo_text.specs.Line.{Line};
ghost use Rattle.resolvo_text.specs.Matches.{Set};
ghost use Rattle.resolvo_catalogue_core.specs.Sets.{IsRuleKeeping};
ghost use Rattle.resolvo_judge.specs.declared.judgement.JudgeFault.TheVariants.{TooLong};
ghost use Rattle.resolvo_judge.specs.declared.judgement.Verdict.{Verdict};
ghost use Rattle.resolvo_judge.specs.declared.judgement.Verdict.TheVariants.{Yes};
ghost use Rattle.resolvo_judge.specs.Judgement.{IsJudgeFault, IsRefusedAt, IsVerdict};
ghost use Rattle.resolve_check.specs.declared.outcome.Checked.{Checked};
ghost use Rattle.resolve_check.specs.declared.outcome.Checked.TheVariants.{Yes as Accepted};
ghost use Rattle.resolve_check.specs.declared.outcome.Outcome.{Outcome};
ghost use Rattle.resolve_check.specs.declared.outcome.Outcome.TheVariants.{Faulty, Installed};
ghost use Rattle.resolve_check.specs.Check.{IsCheck, yes_text};
ghost use Rattle.resolve_run.specs.Headline.{IsHeadline, IsRightText};

/// Over the lines of grammatical texts, a run installs exactly if some set of versions keeps the
/// rules of both.
pub fn installs_exactly_if_some_set_keeps_the_rules()
    ensures { (catalogue request : List Line) (ended : Outcome) (output : List ℕ)
        → IsRightText catalogue request ended output
        → (ended ≡ Installed) ↔ ((set : Set) × IsRuleKeeping catalogue request set) }
{}

/// The judge accepts each report that a run wrote over the same texts. It answers yes, refuses no
/// line, and doesn't find the report too long. A check writes `yes` for the report of a run without
/// a fault.
pub fn the_judge_accepts_each_report()
    ensures judged { (catalogue request : List Line) (ended : Outcome) (output : List ℕ)
        (verdict : Verdict)
        → IsRightText catalogue request ended output
        → IsVerdict catalogue request output verdict
        → verdict ≡ Yes }
    ensures refused_nowhere { (catalogue request : List Line) (ended : Outcome) (output : List ℕ)
        (n : ℕ)
        → IsRightText catalogue request ended output
        → IsRefusedAt catalogue request output n
        → ⊥ }
    ensures not_too_long { (catalogue request : List Line) (ended : Outcome) (output : List ℕ)
        (after : Option (List ℕ))
        → IsRightText catalogue request ended output
        → IsJudgeFault catalogue request TooLong (Some output) after (Unit {0})
        → ⊥ }
    ensures checked { (c r : List ℕ) (ended : Outcome) (output : List ℕ) (checked : Checked)
        (verdict_text : List ℕ)
        → IsHeadline c r ended output
        → (ended ≡ Faulty → ⊥)
        → IsCheck c r output checked verdict_text
        → (checked ≡ Accepted) × (verdict_text ≡ yes_text) }
{}
