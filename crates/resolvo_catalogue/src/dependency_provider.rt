//! The traits of a provider, by which the solver calls it, and their laws.

ghost use Rattle.std.specs.Prelude.{◌≡◌, ◌==◌, ◌∷◌, [], ◌++◌, true, reverse, IfOk, OnOk, IsOkUnless, option_copied};
ghost use Rattle.resolvo_pool_core.specs.declared.want.Want.TheVariants.{Memory};
ghost use Rattle.std.specs.List.{find, flat_map};
ghost use Rattle.std.specs.List.Sorted.{IsNonDecreasingBy};
ghost use Rattle.resolvo_catalogue.specs.Laws.{operands_below, candidates_named};
ghost use Rattle.resolvo_catalogue.specs.Ids.{solvables_of};
ghost use Rattle.resolvo_catalogue.specs.Dependencies.{deps_of};
ghost use Rattle.resolvo_catalogue.specs.Provider.{age_of, matches, marks_at, many_at, are_many, deps_at, exclusion_of, exclusions_of};
ghost use Rattle.resolvo_catalogue.specs.Known.{solvable_at, name_of, set_at, members_of, condition_at, name_text, solvable_text, merged_text, span_text, word_text};

use crate::dependencies::VersionDependencies;
use crate::provider::{CatalogueProvider, Hint};
use resolvo_catalogue_core::{Span, is_in_span};
use resolvo_pool_core::condition::Condition;
use resolvo_pool_core::id::{
    ConditionId, DenseIndex, NameId, SolvableId, StringId, VersionSetId, VersionSetUnionId,
};
use resolvo_pool_core::provider::{
    Candidates, Dependencies, DependencyProvider, HintDependenciesAvailable, Interner,
    KnownDependencies,
};
use resolvo_pool_core::want::R;
use std::alloc::{AllocError, Global};
use std::fmt;

/// For so many solvables at most the first one that is found reserves room.
const ROOM: usize = 8;

/// The value with which a provider over a catalogue cancels when its budget is used up.
#[derive(Clone, Copy, Debug, PartialEq, Eq)]
pub struct GivenUp;

impl<'a> Interner for CatalogueProvider<'a> {
    type NameId = NameId;

    type SolvableId = SolvableId;

    ghost name_of_solvable = { λ p s. name_of p.ids s };

    ghost name_of_version_set = { λ p v. (set_at p.ids v).0 };

    ghost members_of = { λ p u. members_of p.ids u };

    ghost condition_of = { λ p c. condition_at p.ids c };

    ghost solvable_text = { λ p s. solvable_text p.ids s };

    ghost solvable_name_text = { λ p s. name_text p.ids (name_of p.ids s) };

    ghost merged_text = { λ p xs. merged_text p.ids xs };

    ghost name_text = { λ p n. name_text p.ids n };

    ghost version_set_text = { λ p v. span_text (set_at p.ids v).1.0 };

    ghost string_text = { λ p w. word_text p.ids w };

    ghost operands_below = { λ p c. operands_below p.ids c };

    fn display_solvable<W: fmt::Write>(
        &self,
        solvable: SolvableId,
        f: &mut fmt::Formatter<W>,
    ) -> fmt::Result {
        let name = self.ids.name(self.ids.package_of(solvable));
        let number = self.ids.number_of(solvable);
        write!(f, "{name} {number}")
    }

    fn display_solvable_name<W: fmt::Write>(
        &self,
        solvable: SolvableId,
        f: &mut fmt::Formatter<W>,
    ) -> fmt::Result {
        f.write_str(self.ids.name(self.ids.package_of(solvable)))
    }

    fn display_merged_solvables<W: fmt::Write>(
        &self,
        solvables: &[SolvableId],
        f: &mut fmt::Formatter<W>,
    ) -> fmt::Result {
        let Some((first, others)) = solvables.split_first() else {
            return Ok(());
        };
        self.display_solvable(*first, f)?;
        for other in others {
            let number = self.ids.number_of(*other);
            write!(f, " | {number}")?;
        }
        Ok(())
    }

    fn display_name<W: fmt::Write>(&self, name: NameId, f: &mut fmt::Formatter<W>) -> fmt::Result {
        f.write_str(self.ids.name(name))
    }

    fn display_version_set<W: fmt::Write>(
        &self,
        version_set: VersionSetId,
        f: &mut fmt::Formatter<W>,
    ) -> fmt::Result {
        match self.ids.span(version_set) {
            Span::Any => f.write_str("*"),
            Span::One(number) => write!(f, "{number}"),
            Span::Range(low, high) => write!(f, "{low}..{high}"),
        }
    }

    fn display_string<W: fmt::Write>(
        &self,
        string: StringId,
        f: &mut fmt::Formatter<W>,
    ) -> fmt::Result {
        f.write_str(self.ids.text(string))
    }

    fn version_set_name(&self, version_set: VersionSetId) -> NameId {
        self.ids.set_package(version_set)
    }

    fn solvable_name(&self, solvable: SolvableId) -> NameId {
        self.ids.package_of(solvable)
    }

    fn version_sets_in_union(&self, union: VersionSetUnionId) -> &[VersionSetId] {
        self.ids.members(union)
    }

    fn resolve_condition(&self, condition: ConditionId) -> Condition {
        self.ids.meaning(condition)
    }
}

impl<'a> DependencyProvider for CatalogueProvider<'a> {
    ghost use Rattle.std.specs.Prelude.{⊤, true};
    ghost use Rattle.resolvo_catalogue.specs.Provider.{candidates_of, dependencies_of, IsSorted};

    type Cancel = GivenUp;

    ghost matches = { λ p v s. matches p v s };

    ghost candidates_of = { λ p n. candidates_of p n };

    ghost dependencies_of = { λ p s. dependencies_of p s };

    ghost sorts = { λ p xs ys. IsSorted p xs ys };

    ghost may_cancel = { λ p c. p.has_budget ≡ true };

    ghost may_lack_ids = { λ p. ⊥ };

    ghost sorts_permute = { λ p xs ys h. h.permutation };

    ghost candidates_named = { λ p n. candidates_named p n };

    fn filter_candidates(
        &self,
        alloc: Global,
        candidates: &[SolvableId],
        version_set: VersionSetId,
        inverse: bool,
    ) -> R<Vec<SolvableId>> {
        let name = self.ids.set_package(version_set);
        let span = self.ids.span(version_set);
        let mut found = Vec::new(alloc);
        for candidate in candidates {
            if self.is_in(name, span, *candidate) != inverse {
                put_found(&mut found, *candidate, candidates.len())?;
            }
        }
        Ok(found)
    }

    fn get_candidates(&self, alloc: Global, name: NameId) -> R<Option<Candidates<SolvableId>>> {
        let candidates = self.versions_of(alloc, name)?;
        if candidates.is_empty() {
            return Ok(None);
        }
        let favored = self.favored_of(&candidates);
        let locked = self.locked_of(&candidates);
        let excluded = self.excluded_of(alloc, &candidates)?;
        let many = self.are_many(&candidates);
        Ok(Some(Candidates {
            candidates,
            favored,
            locked,
            hint_dependencies_available: match self.hint {
                Hint::None => HintDependenciesAvailable::None,
                Hint::All => HintDependenciesAvailable::All,
            },
            excluded,
            many,
        }))
    }

    fn sort_candidates(&self, alloc: Global, candidates: &mut [SolvableId]) -> R<()> {
        if self.rise(candidates) {
            candidates.reverse();
            return Ok(());
        }
        candidates.sort_by_key(alloc, |s| u32::MAX - self.ids.number_of(*s))?;
        Ok(())
    }

    fn get_dependencies(&self, alloc: Global, solvable: SolvableId) -> R<Dependencies> {
        let VersionDependencies {
            requirements,
            constrains,
            unknown,
        } = self.dependencies_of(alloc, solvable)?;
        match unknown {
            Some(why) => Ok(Dependencies::Unknown(why)),
            None => Ok(Dependencies::Known(KnownDependencies {
                requirements,
                constrains,
            })),
        }
    }

    fn should_cancel_with_value(&self) -> Option<GivenUp> {
        let left = match &self.budget {
            Some(left) => left,
            None => return None,
        };
        match left.get().checked_sub(1) {
            Some(rest) => {
                left.set(rest);
                None
            }
            None => Some(GivenUp),
        }
    }
}

impl<'a> CatalogueProvider<'a> {
    /// Whether the solvable is of the package, and its number lies in the span.
    fn is_in(&self, name: NameId, span: Span, solvable: SolvableId) -> bool
        ensures { (v : VersionSetId)
            → name ≡ (set_at self.now.ids v).0
            → span ≡ (set_at self.now.ids v).1.0
            → result ≡ matches self.now v solvable }
    {
        self.ids.package_of(solvable) == name && is_in_span(span, self.ids.number_of(solvable))
    }

    /// Whether the numbers of solvables rise.
    fn rise(&self, solvables: &[SolvableId]) -> bool
        ensures { result ≡ true → IsNonDecreasingBy (age_of self.now) (reverse solvables.now) }
    {
        let mut least = 0;
        for solvable in solvables {
            let number = u64::from(self.ids.number_of(*solvable));
            if number < least {
                return false;
            }
            least = number + 1;
        }
        true
    }

    /// The versions of a package, in the order of their lines.
    fn versions_of(&self, alloc: Global, name: NameId) -> R<Vec<SolvableId>>
        ensures versions { IfOk result (λ v. v.items ≡ solvables_of self.now.ids name.raw) }
        ensures refusal { IsOkUnless result Memory }
    {
        let versions = self.kept.versions_of(name);
        let mut solvables = Vec::with_capacity(alloc, versions.len())?;
        for version in versions {
            solvables.push(SolvableId::from_raw(version.0))?;
        }
        Ok(solvables)
    }

    /// The requirements and constraints of a version; none of a solvable that no version is.
    fn dependencies_of(
        &self,
        alloc: Global,
        solvable: SolvableId,
    ) -> Result<VersionDependencies, AllocError>
        ensures { IfOk result (λ deps. deps_of deps ≡ deps_at self.now solvable) }
    {
        let lines = self.kept.lines_of(self.version_of(solvable));
        VersionDependencies::of_lines(alloc, &self.kept, lines)
    }

    fn favored_of(&self, versions: &[SolvableId]) -> Option<SolvableId>
        ensures { result ≡ find (λ s. (marks_at self.now s).favored) versions.now }
    {
        for version in versions {
            if self.is_favored(*version) {
                return Some(*version);
            }
        }
        None
    }

    fn locked_of(&self, versions: &[SolvableId]) -> Option<SolvableId>
        ensures { result ≡ find (λ s. (marks_at self.now s).locked) versions.now }
    {
        for version in versions {
            if self.is_locked(*version) {
                return Some(*version);
            }
        }
        None
    }

    /// Whether the package of these versions is marked `many`.
    fn are_many(&self, versions: &[SolvableId]) -> bool
        ensures { result ≡ are_many self.now versions.now }
    {
        match versions.first() {
            Some(version) => self.is_many(*version),
            None => false,
        }
    }

    fn is_many(&self, solvable: SolvableId) -> bool
        ensures { result ≡ many_at self.now solvable }
    {
        match self.many.get(solvable.to_index()) {
            Some(many) => *many,
            None => false,
        }
    }

    fn is_favored(&self, solvable: SolvableId) -> bool
        ensures { result ≡ (marks_at self.now solvable).favored }
    {
        match self.marks.get(solvable.to_index()) {
            Some(marks) => marks.favored,
            None => false,
        }
    }

    fn is_locked(&self, solvable: SolvableId) -> bool
        ensures { result ≡ (marks_at self.now solvable).locked }
    {
        match self.marks.get(solvable.to_index()) {
            Some(marks) => marks.locked,
            None => false,
        }
    }

    fn exclusion(&self, solvable: SolvableId) -> Option<StringId>
        ensures { result ≡ (marks_at self.now solvable).excluded }
    {
        match self.marks.get(solvable.to_index()) {
            Some(marks) => marks.excluded,
            None => None,
        }
    }

    /// The line that excludes a solvable, or 0.
    fn exclusion_line(&self, solvable: SolvableId) -> u32
        ensures { result ≡ (marks_at self.now solvable).line }
    {
        match self.marks.get(solvable.to_index()) {
            Some(marks) => marks.line,
            None => 0,
        }
    }

    /// Those that are excluded, each with the reason.
    fn exclusions_among(
        &self,
        alloc: Global,
        versions: &[SolvableId],
    ) -> R<Vec<(SolvableId, StringId)>>
        ensures excluded { IfOk result (λ v. v.items ≡ flat_map (exclusion_of self.now) versions.now) }
        ensures refusal { IsOkUnless result Memory }
    {
        let mut excluded = Vec::new(alloc);
        for version in versions {
            if let Some(why) = self.exclusion(*version) {
                excluded.push((*version, why))?;
            }
        }
        Ok(excluded)
    }

    /// The same, in the order of the lines that exclude them.
    fn excluded_of(&self, alloc: Global, versions: &[SolvableId]) -> R<Vec<(SolvableId, StringId)>>
        ensures excluded { IfOk result (λ v. v.items ≡ exclusions_of self.now versions.now) }
        ensures refusal { IsOkUnless result Memory }
    {
        let mut excluded = self.exclusions_among(alloc, versions)?;
        excluded.sort_by_key(|one| self.exclusion_line(one.0))?;
        Ok(excluded)
    }
}

/// Appends a solvable. The first one reserves room for several: at most so many are found.
fn put_found(found: &mut Vec<SolvableId>, solvable: SolvableId, most: usize) -> R<()>
    ensures pushed { OnOk result (found.new.items ≡ found.old.items ++ solvable ∷ []) }
    ensures refusal { IsOkUnless result Memory }
{
    if found.is_empty() {
        found.reserve(most.min(ROOM))?;
    }
    found.push(solvable)?;
    Ok(())
}
