//! The laws of proofs and verdicts, for other crates. Each is a function that does nothing.

ghost use Rattle.std.specs.Prelude.{◌≡◌, ℕ, List, Some, true, slice_get, [], ◌∷◌, ◌++◌, map};
ghost use Rattle.std.specs.List.{AllByRecursion};
ghost use Rattle.resolvo_text.specs.Line.{Version, Line};
ghost use Rattle.resolvo_text.specs.Matches.{Set};
ghost use Rattle.resolvo_catalogue_core.specs.Sets.{AreRefuted};
ghost use Rattle.resolvo_catalogue_core.specs.Answers.{ClaimsInstall, ClaimsRefusal};
ghost use Rattle.resolvo_report.specs.Value.{Step, ReportLine, InstallHead, RefusedHead, Message, Refused};
ghost use Rattle.resolvo_report.specs.Text.{HasText, lines_text, report_text};
ghost use Rattle.resolvo_judge.specs.Refusal.{IsAccepted, answers_claimed, catalogue_lines_in, request_lines_in};
ghost use Rattle.resolvo_checker.specs.StepClauses.{Clause, clause_of};
ghost use Rattle.resolvo_checker.specs.Proof.{IsProof, is_named, every_line, ends_empty, forbids, AreApart, ObeysLines, IsTrueIn};
ghost use Rattle.resolvo_catalogue_core.specs.Sets.{IsSingle};
ghost use Rattle.resolvo_report.specs.Value.{Report};
ghost use Rattle.resolvo_judge.specs.Judgement.{IsUpheld, IsRefusedAt};

/// The clause of each step of a proof is true in each single set that obeys the proof's lines.
/// Each version has one place, and auxiliary atoms have their defined values.
pub fn steps_are_true()
    ensures { (catalogue request : List Line) (catalogue_lines request_lines : List ℕ)
        (steps : List Step)
        (set : Set)
        → IsProof catalogue request (is_named catalogue_lines) (is_named request_lines) steps
        → IsSingle catalogue set
        → ObeysLines catalogue request catalogue_lines request_lines set
        → IsTrueIn catalogue request set steps }
{}

/// A proof that ends with the empty clause refutes its lines.
pub fn proof_refutes()
    ensures { (catalogue request : List Line) (catalogue_lines request_lines : List ℕ)
        (steps : List Step)
        → IsProof catalogue request (is_named catalogue_lines) (is_named request_lines) steps
        → ends_empty steps ≡ true
        → AreRefuted catalogue request catalogue_lines request_lines }
{}

/// If the only literals of a step's clause are `not` of a wish and of entries, no rule-keeping set
/// has them all.
pub fn proof_forbids()
    ensures { (catalogue request : List Line) (steps : List Step) (entries : Set) (wish : Version)
        (n : ℕ)
        (step : Step) (clause : Clause)
        → IsProof catalogue request every_line every_line steps
        → slice_get steps n ≡ Some step
        → clause_of catalogue request step ≡ Some clause
        → forbids entries wish clause ≡ true
        → AreApart catalogue request entries wish }
{}

/// If the lines and the end of a refusal pass, no single set obeys the lines that it names.
pub fn accepted_refusal_is_true()
    ensures { (catalogue request : List Line) (lines : List ReportLine)
        → IsAccepted catalogue request (RefusedHead ∷ lines)
        → ClaimsRefusal catalogue request (catalogue_lines_in lines) (request_lines_in lines) }
{}

/// If the lines and the end of an install report pass, its entries are a rule-keeping set. Each is
/// there for the reason that it names, and each wish is an entry or rightly left out.
pub fn accepted_install_is_true()
    ensures { (catalogue request : List Line) (lines : List ReportLine)
        → IsAccepted catalogue request (InstallHead ∷ lines)
        → ClaimsInstall catalogue request (answers_claimed lines) }
{}

/// A text is refused at one line at most.
pub fn places_are_one()
    ensures { (catalogue request : List Line) (text : List ℕ) (m n : ℕ)
        → IsRefusedAt catalogue request text m
        → IsRefusedAt catalogue request text n
        → m ≡ n }
{}

/// The text of an upheld report is refused at no line. So a verdict is yes, or the one line of
/// refusal.
pub fn upheld_texts_are_refused_nowhere()
    ensures { (catalogue request : List Line) (text : List ℕ) (r : Report) (n : ℕ)
        → IsUpheld catalogue request text r
        → IsRefusedAt catalogue request text n
        → ⊥ }
{}

/// A refused report that is upheld stays so with any other message, or with none.
pub fn messages_change_nothing()
    ensures { (catalogue request : List Line) (catalogue_lines request_lines : List ℕ)
        (steps : List Step)
        (message other : List (List ℕ))
        → AllByRecursion HasText (map Message other)
        → IsUpheld catalogue request
        (report_text (Refused catalogue_lines request_lines steps message))
        (Refused catalogue_lines request_lines steps message)
        → IsUpheld catalogue request
        (report_text (Refused catalogue_lines request_lines steps other))
        (Refused catalogue_lines request_lines steps other) }
{}

/// Other bytes in a line of message keep the line of refusal, below lines in the grammar of
/// reports. So the judge's verdict is the same for other bytes in as many lines of message.
pub fn message_bytes_change_nothing()
    ensures { (catalogue request : List Line) (above : List ReportLine) (bytes other below : List ℕ)
        (n : ℕ)
        → AllByRecursion HasText above
        → HasText (Message bytes)
        → HasText (Message other)
        → IsRefusedAt catalogue request (lines_text (above ++ Message bytes ∷ []) ++ below) n
        → IsRefusedAt catalogue request (lines_text (above ++ Message other ∷ []) ++ below) n }
{}
