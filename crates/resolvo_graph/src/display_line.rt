//! The lines of the message: an indent, and a sentence on a requirement, on merged versions, or
//! on a constraint. docs/MESSAGES.md explains the sentences to those who read them.
ghost use Rattle.std.specs.Prelude.{◌≡◌, ◌==◌, ◌∷◌, [], IfOk, IsOkUnless, Some, length};
ghost use Rattle.std.specs.Fmt.{WritesOnOk};
ghost use Rattle.resolvo_pool_core.specs.declared.want.Want.TheVariants.{Memory};
ghost use Rattle.resolvo_graph.specs.Words.{meaning_by, line_text, sentence_words, requirement_words, versions_words, set_words, admitted_words, constraint_words, words_before, words_behind, words_of};

use crate::indenter::Indenter;
use resolvo_pool_core::id::{SolvableId, StringId, VersionSetId};
use resolvo_pool_core::provider::Interner;
use resolvo_pool_core::requirement::{DisplayRequirement, Requirement};
use resolvo_pool_core::want::R;
use std::alloc::Global;
use std::fmt;
use std::marker::Model;

/// The sentence on a requirement.
#[derive(Clone, Copy)]
pub enum Outlook {
    /// No candidate matches.
    Missing,
    /// Some candidate can be installed.
    Installable,
    /// None of the candidates can be installed.
    Hopeless,
}

/// The sentence on versions.
#[derive(Clone, Copy)]
pub enum Verdict {
    /// They can be installed.
    Alone,
    /// They are excluded, for this reason.
    Excluded(StringId),
    /// Another version of their package is reported above.
    Conflicts,
    /// They admit only some versions of other packages, listed below.
    Constrains,
    /// They need what is listed below.
    Requires,
    /// They are locked, and another version is needed.
    Locked,
}

impl Outlook {
    /// The words before a requirement, at the top and below.
    #[tactic(auto, unfolding(crate::specs::Words::words_before))]
    fn words_before(self, top: bool) -> &'static str
        ensures { result.now ≡ words_before top self }
    {
        match (self, top) {
            (Outlook::Missing, true) => "No candidates were found for ",
            _ => "",
        }
    }

    /// The words behind a requirement, at the top and below.
    #[tactic(auto, unfolding(crate::specs::Words::words_behind))]
    fn words_behind(self, top: bool) -> &'static str
        ensures { result.now ≡ words_behind top self }
    {
        match (self, top) {
            (Outlook::Missing, true) => ".",
            (Outlook::Missing, false) => ", for which no candidates were found.",
            (Outlook::Installable, true) => {
                " can be installed with any of the following options:"
            }
            (Outlook::Installable, false) => {
                ", which can be installed with any of the following options:"
            }
            (Outlook::Hopeless, true) => {
                " cannot be installed because there are no viable options:"
            }
            (Outlook::Hopeless, false) => {
                ", which cannot be installed because there are no viable options:"
            }
        }
    }
}

impl Verdict {
    /// The words behind versions, before a reason.
    #[tactic(auto, unfolding(crate::specs::Words::words_of))]
    fn words(self) -> &'static str
        ensures { result.now ≡ words_of self }
    {
        match self {
            Verdict::Alone => "",
            Verdict::Excluded(_) => " is excluded because ",
            Verdict::Conflicts => ", which conflicts with the versions reported above.",
            Verdict::Constrains => " would constrain",
            Verdict::Requires => " would require",
            Verdict::Locked => " is locked, but another version is required as reported above",
        }
    }
}

/// Merged versions of one package.
#[derive(Drop)]
pub struct Versions<S> {
    ids: Vec<S>,
}

impl<S> Model for Versions<S> {
    ghost use Rattle.std.specs.Prelude.{List};

    ghost Value = { List S };

    ghost view = { λ v. v.ids.items };
}

impl<S> Versions<S> {
    /// These versions.
    pub fn new(ids: Vec<S>) -> Versions<S>
        ensures { result ≡ ids.items }
    {
        Versions { ids }
    }

    /// The versions, in order.
    pub fn ids(&self) -> &[S]
        ensures { result.now ≡ self.now }
    {
        self.ids.as_slice()
    }
}

impl<S: Copy> Versions<S> {
    /// One version.
    pub(crate) fn one(alloc: Global, version: S) -> R<Versions<S>>
        ensures versions { IfOk result (λ v. v ≡ version ∷ []) }
        ensures refusal { IsOkUnless result Memory }
    {
        let mut ids = Vec::new(alloc);
        ids.push(version)?;
        Ok(Versions { ids })
    }
}

/// The sentence of a line.
#[derive(Drop)]
pub enum Sentence<S = SolvableId> {
    /// The heading of the second tree.
    Incompatible,
    Requirement(Requirement, Outlook),
    Versions(Versions<S>, Verdict),
    /// The only version set that the versions above admit.
    Admitted(VersionSetId),
    /// A constraint of the problem itself.
    Constraint(VersionSetId),
}

/// A line of the message.
#[derive(Drop)]
pub struct MessageLine<S = SolvableId> {
    pub indenter: Indenter,
    pub sentence: Sentence<S>,
}

/// A line, to be written.
#[derive(Drop)]
pub(crate) struct DisplayLine<'a, I: Interner> {
    pub(crate) line: &'a MessageLine<I::SolvableId>,
    pub(crate) interner: &'a I,
}

impl<I: Interner> fmt::Display for DisplayLine<'_, I> {
    ghost output = { λ d.
        Some
        (line_text
        (meaning_by I.Interner d.interner.now)
        d.line.now) };

    fn fmt<W: fmt::Write>(&self, f: &mut fmt::Formatter<W>) -> fmt::Result {
        let indent = &self.line.indenter;
        write!(f, "{indent}")?;
        self.write_sentence(f)?;
        f.write_str("\n")
    }
}

impl<I: Interner> DisplayLine<'_, I> {
    /// Writes the line's sentence.
    fn write_sentence<W: fmt::Write>(&self, f: &mut fmt::Formatter<W>) -> fmt::Result
        ensures { WritesOnOk W.write_str_gives f.old result
            (sentence_words
            (meaning_by I.Interner self.now.interner.now)
            (length self.now.line.now.indenter.levels == 1) self.now.line.now.sentence)
            f.new }
    {
        match &self.line.sentence {
            Sentence::Incompatible => f.write_str("The following packages are incompatible"),
            Sentence::Requirement(requirement, outlook) => {
                self.write_requirement(*requirement, *outlook, f)
            }
            Sentence::Versions(versions, verdict) => self.write_versions(versions, *verdict, f),
            Sentence::Admitted(version_set) => self.write_admitted(*version_set, f),
            Sentence::Constraint(version_set) => self.write_constraint(*version_set, f),
        }
    }

    /// Writes the only version set that the versions above admit.
    fn write_admitted<W: fmt::Write>(
        &self,
        version_set: VersionSetId,
        f: &mut fmt::Formatter<W>,
    ) -> fmt::Result
        ensures { WritesOnOk W.write_str_gives f.old result
            (admitted_words
            (meaning_by I.Interner self.now.interner.now)
            version_set)
            f.new }
    {
        self.write_set(version_set, f)?;
        f.write_str(", which conflicts with any installable versions previously reported")
    }

    /// Writes a constraint of the problem itself.
    fn write_constraint<W: fmt::Write>(
        &self,
        version_set: VersionSetId,
        f: &mut fmt::Formatter<W>,
    ) -> fmt::Result
        ensures { WritesOnOk W.write_str_gives f.old result
            (constraint_words
            (meaning_by I.Interner self.now.interner.now)
            version_set)
            f.new }
    {
        f.write_str("the constraint ")?;
        self.write_set(version_set, f)?;
        f.write_str(" cannot be fulfilled")
    }

    /// Writes the sentence on a requirement: at the top in other words than below.
    fn write_requirement<W: fmt::Write>(
        &self,
        requirement: Requirement,
        outlook: Outlook,
        f: &mut fmt::Formatter<W>,
    ) -> fmt::Result
        ensures { WritesOnOk W.write_str_gives f.old result
            (requirement_words
            (meaning_by I.Interner self.now.interner.now)
            (length self.now.line.now.indenter.levels == 1) requirement outlook)
            f.new }
    {
        let top = self.line.indenter.is_at_top_level();
        let shown = DisplayRequirement {
            requirement,
            interner: self.interner,
        };
        f.write_str(outlook.words_before(top))?;
        write!(f, "{shown}")?;
        f.write_str(outlook.words_behind(top))
    }

    /// Writes the sentence on versions.
    fn write_versions<W: fmt::Write>(
        &self,
        versions: &Versions<I::SolvableId>,
        verdict: Verdict,
        f: &mut fmt::Formatter<W>,
    ) -> fmt::Result
        ensures { WritesOnOk W.write_str_gives f.old result
            (versions_words
            (meaning_by I.Interner self.now.interner.now)
            versions.now verdict)
            f.new }
    {
        self.interner.display_merged_solvables(versions.ids(), f)?;
        f.write_str(verdict.words())?;
        match verdict {
            Verdict::Excluded(reason) => self.interner.display_string(reason, f),
            _ => Ok(()),
        }
    }

    /// Writes a version set behind its package's name.
    fn write_set<W: fmt::Write>(
        &self,
        version_set: VersionSetId,
        f: &mut fmt::Formatter<W>,
    ) -> fmt::Result
        ensures { WritesOnOk W.write_str_gives f.old result
            (set_words
            (meaning_by I.Interner self.now.interner.now)
            version_set)
            f.new }
    {
        let name = self.interner.version_set_name(version_set);
        self.interner.display_name(name, f)?;
        f.write_str(" ")?;
        self.interner.display_version_set(version_set, f)
    }
}
