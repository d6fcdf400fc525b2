//! Laws about a solver's verdict over the provider of a catalogue. Each is a function that does
//! nothing.
ghost use Rattle.std.specs.Prelude.{List};
ghost use Rattle.resolvo_text.specs.Line.{Line};
ghost use Rattle.resolvo_text.specs.Matches.{Set};
ghost use Rattle.resolvo_catalogue_core.specs.Questions.{ReadRequest};
ghost use Rattle.resolvo_catalogue_core.specs.Sets.{IsRuleKeeping};
ghost use Rattle.resolvo_catalogue.specs.Provider.{Provider};
ghost use Rattle.resolve_answer.specs.Verdict.{IsChosen, IsGivenOver, IsRefused, Verdict};

/// A solver over the provider of a catalogue chooses only where some set of versions keeps the
/// rules of both texts. It refuses only where none does.
pub fn a_verdict_is_that_of_the_texts()
    ensures chosen { (catalogue : List Line) (source : ReadRequest) (provider : Provider)
        (verdict : Verdict)
        → IsGivenOver catalogue source provider verdict
        → IsChosen verdict
        → (set : Set) × IsRuleKeeping catalogue source.lines set }
    ensures refused { (catalogue : List Line) (source : ReadRequest) (provider : Provider)
        (verdict : Verdict)
        → IsGivenOver catalogue source provider verdict
        → IsRefused verdict
        → (set : Set)
        → IsRuleKeeping catalogue source.lines set
        → ⊥ }
{}

/// Two providers of one catalogue give one verdict for one request, whichever dependencies each
/// declares as at hand. Where solvables are chosen over one, the other isn't refused.
pub fn either_hint_gives_one_verdict()
    ensures { (catalogue : List Line) (source : ReadRequest) (one other : Provider)
        (verdict another : Verdict)
        → IsGivenOver catalogue source one verdict
        → IsGivenOver catalogue source other another
        → IsChosen verdict
        → IsRefused another
        → ⊥ }
{}
