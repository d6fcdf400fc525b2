//! The words of a line as numbers: a SPEC, alternatives, a need. No text is kept but that of a name
//! that is new. The law is the parser of `resolvo_text`; called by the reader of a catalogue.

ghost use Rattle.std.specs.Prelude.{◌≡◌, ◌∷◌, ◌<◌, ◌≤◌, ◌+◌, ◌*◌, [], ℕ, List, Option, length, IfOk, IfSome, OnErr, Ok, Err, Some, None};
ghost use Rattle.resolvo_text.specs.declared.line.LineFault.TheVariants.{Memory};
ghost use Rattle.resolvo_text.specs.Line as parsed;
ghost use Rattle.resolvo_text.specs.Parse.{words_in, spec_at, spec_in, alternatives_at, with_first, needs_in, version_in};
ghost use Rattle.resolvo_terms.specs.Terms.{Grows, IsPackage, IsSpec, AreEach, AreAlternatives};
ghost use Rattle.resolvo_terms.specs.TermCounts.{term_count};
ghost use Rattle.resolvo_terms.specs.Reads.{Reads, IsNeedRead};

use crate::terms::Terms;
use resolvo_pool_core::id::{NameId, VersionSetId};
use resolvo_pool_core::requirement::{ConditionalRequirement, Requirement};
use resolvo_pool_core::want::R;
use resolvo_text::{LineFault, Span, last_number, no_more, skip, span_at, word_at};

/// The room that is made at first for alternatives that a bar parts.
const FEW: usize = 2;

/// A number, unless memory or numbers ran out.
pub(crate) fn numbered<T: Copy>(number: R<T>) -> Result<T, LineFault>
    ensures given { IfOk result (λ x. number ≡ Ok x) }
    ensures memory { OnErr result (result ≡ Err Memory) }
{
    match number {
        Ok(number) => Ok(number),
        Err(_) => Err(LineFault::Memory),
    }
}

impl Terms {
    /// The SPEC of the next words.
    #[tactic(auto, unfolding(resolvo_text::specs::Parse::spec_at))]
    pub(crate) fn spec_at<'a>(
        &mut self,
        words: &'a [u8],
    ) -> Result<(VersionSetId, &'a [u8]), LineFault>
        ensures shorter { IfOk result (λ x. length x.1.now < length words.now) }
        ensures words { Reads
            (λ x read. IsSpec self.new x.0 read.0 × (words_in x.1.now ≡ read.1))
            result (spec_at (words_in words.now)) }
        ensures grows { Grows self.old self.new }
        ensures few { term_count self.new ≤ term_count self.old + 2 }
    {
        let (word, words) = word_at(words)?;
        let package = self.package_in(word)?;
        let (span, words) = span_at(words);
        Ok((numbered(self.version_set(package, span))?, words))
    }

    /// The first alternative and those after its bar.
    fn several_at<'a>(
        &mut self,
        first: VersionSetId,
        words: &'a [u8],
    ) -> Result<(Vec<VersionSetId>, &'a [u8]), LineFault>
        ensures words { (n : ℕ) (s : parsed.Spec)
            → length (words_in words.now) ≤ n
            → IsSpec self.old first s
            → Reads
            (λ x read.
            AreEach (IsSpec self.new) x.0.items read.0
            × (words_in x.1.now ≡ read.1)
            × (term_count self.new + 2 ≤ term_count self.old + 2 * length read.0))
            result (with_first s (alternatives_at n (words_in words.now))) }
        ensures several { IfOk result (λ x. (v : VersionSetId) → x.0.items ≡ v ∷ [] → ⊥) }
        ensures grows { Grows self.old self.new }
    {
        let mut members = Vec::with_capacity(self.alloc, FEW)?;
        members.push(first)?;
        let mut rest = words;
        loop {
            let (spec, after) = self.spec_at(rest)?;
            members.push(spec)?;
            let (more, others) = skip(after, b"|");
            rest = others;
            if !more {
                return Ok((members, rest));
            }
        }
    }

    /// One alternative or more.
    fn alternatives_at<'a>(&mut self, words: &'a [u8]) -> Result<(Requirement, &'a [u8]), LineFault>
        ensures words { Reads
            (λ x read.
            AreAlternatives self.new x.0 read.0
            × (words_in x.1.now ≡ read.1)
            × (term_count self.new ≤ term_count self.old + 2 * length read.0 + 1))
            result (alternatives_at (length (words_in words.now)) (words_in words.now)) }
        ensures grows { Grows self.old self.new }
    {
        let (first, after) = self.spec_at(words)?;
        let (more, others) = skip(after, b"|");
        if !more {
            return Ok((Requirement::Single(first), others));
        }
        let (members, rest) = self.several_at(first, others)?;
        let union = numbered(self.union(members))?;
        Ok((Requirement::Union(union), rest))
    }

    /// The version set of a need, if its words are one name that is known, and all versions of the
    /// package were asked for before. Most needs are such: their words are not told apart.
    pub fn plain_need_in(&self, words: &[u8]) -> Option<VersionSetId>
        ensures { IfSome result
            (λ v.
            (s : parsed.Spec)
            × (needs_in (words_in words.now) ≡ Some (parsed.Needs (s ∷ []) None))
            × IsSpec self.now v s) }
    {
        let parts = words.split_first()?;
        let package = self.known_package(parts.1)?;
        self.known_whole(package)
    }

    /// The need of the words after `needs`, part by part.
    #[inline(never)]
    pub fn need_in(&mut self, words: &[u8]) -> Result<ConditionalRequirement, LineFault>
        ensures need { Reads (IsNeedRead self.old self.new) result (needs_in (words_in words.now)) }
        ensures grows { Grows self.old self.new }
    {
        let (requirement, words) = self.alternatives_at(words)?;
        let condition = self.condition_in(words)?;
        Ok(ConditionalRequirement {
            condition,
            requirement,
        })
    }

    /// The package and the number of the version of the words after `version`. The name of a known
    /// package isn't looked at byte by byte.
    #[tactic(auto, unfolding(resolvo_text::specs::Parse::version_in, resolvo_text::specs::Parse::version_at, resolvo_text::specs::Parse::last_number))]
    pub fn version_in(&mut self, words: &[u8]) -> Result<(NameId, u32), LineFault>
        ensures version { Reads
            (λ x v. IsPackage self.new x.0 v.name × (x.1 ≡ v.number))
            result (version_in (words_in words.now)) }
        ensures grows { Grows self.old self.new }
        ensures few { term_count self.new ≤ term_count self.old + 1 }
    {
        let (word, words) = word_at(words)?;
        let package = self.listed_package(word)?;
        let number = last_number(words)?;
        Ok((package, number))
    }

    /// The SPEC of the words after `limits`.
    #[tactic(auto, unfolding(resolvo_text::specs::Parse::spec_in))]
    pub fn spec_in(&mut self, words: &[u8]) -> Result<VersionSetId, LineFault>
        ensures spec { Reads (IsSpec self.new) result (spec_in (words_in words.now)) }
        ensures grows { Grows self.old self.new }
        ensures few { term_count self.new ≤ term_count self.old + 2 }
    {
        let (spec, words) = self.spec_at(words)?;
        no_more(words)?;
        Ok(spec)
    }
}
