//! Laws of the two grammars, for callers whose proofs need them. Each is a function that does
//! nothing.

ghost use Rattle.std.specs.Prelude.{◌≡◌, ℕ, List};
ghost use Rattle.resolvo_text.specs.Line.{Line};
ghost use Rattle.resolvo_text.specs.Texts.{IsFaultyAt, IsGrammatical};
ghost use Rattle.resolvo_catalogue_core.specs.Grammar.{IsCatalogueLine, IsRequestLine};

/// A text is that of one catalogue at most.
pub fn text_is_one_catalogue()
    ensures { (text : List ℕ) (a b : List Line)
        → IsGrammatical IsCatalogueLine text a
        → IsGrammatical IsCatalogueLine text b
        → a ≡ b }
{}

/// The text of a catalogue has no faulty line.
pub fn catalogue_has_no_fault()
    ensures { (text : List ℕ) (lines : List Line) (n : ℕ)
        → IsGrammatical IsCatalogueLine text lines
        → IsFaultyAt IsCatalogueLine text n
        → ⊥ }
{}

/// A text is that of one request over a catalogue at most.
pub fn text_is_one_request()
    ensures { (catalogue : List Line) (text : List ℕ) (a b : List Line)
        → IsGrammatical (IsRequestLine catalogue) text a
        → IsGrammatical (IsRequestLine catalogue) text b
        → a ≡ b }
{}

/// The text of a request has no faulty line.
pub fn request_has_no_fault()
    ensures { (catalogue : List Line) (text : List ℕ) (lines : List Line) (n : ℕ)
        → IsGrammatical (IsRequestLine catalogue) text lines
        → IsFaultyAt (IsRequestLine catalogue) text n
        → ⊥ }
{}
