//! A provider in memory for the tests. The solvable 10 n + v is version v of package n, and the
//! version set 10 n + v holds the versions of package n from v on.

use resolvo_pool::{
    Candidates, Condition, ConditionId, DenseIndex, Dependencies, DependencyProvider,
    HintDependenciesAvailable, Interner, KnownDependencies, NameId, R, SolvableId, StringId,
    VersionSetId, VersionSetUnionId,
};
use std::alloc::Global;
use std::cell::Cell;
use std::cmp::Reverse;
use std::fmt;

/// Three packages with the versions 0 to 2 each. It notes how often it was asked, and cancels once.
#[derive(Drop)]
pub struct Tens {
    members: Vec<VersionSetId>,
    favored: Option<SolvableId>,
    cancels_at: Cell<u32>,
    tests: Cell<u32>,
    pub asked: Cell<u32>,
}

/// The provider, with a union of two version sets, which cancels at this test, or never.
pub fn small_provider(alloc: Global, favored: Option<SolvableId>, cancels_at: u32) -> R<Tens> {
    let mut members = Vec::new(alloc);
    members.push(VersionSetId(21))?;
    members.push(VersionSetId(1))?;
    Ok(Tens {
        members,
        favored,
        cancels_at: Cell::new(cancels_at),
        tests: Cell::new(0),
        asked: Cell::new(0),
    })
}

impl Tens {
    fn count_question(&self) {
        self.asked.set(self.asked.get().wrapping_add(1));
    }
}

impl Interner for Tens {
    ghost use Rattle.std.specs.Prelude.{◌/◌, codes, ⊤};
    ghost use Rattle.std.specs.Fmt.{decimal};
    ghost use Rattle.resolvo_pool_core.specs.declared.condition.Condition.TheVariants.{Requirement};

    type NameId = NameId;

    type SolvableId = SolvableId;

    ghost name_of_solvable = { λ p s. record { raw = s.raw / 10; tag = record {} } };

    ghost name_of_version_set = { λ p v. record { raw = v.0 / 10; tag = record {} } };

    ghost members_of = { λ p u. p.members.items };

    ghost condition_of = { λ p c. Requirement (record { 0 = 0 }) };

    ghost solvable_text = { λ p s. decimal s.raw };

    ghost solvable_name_text = { λ p s. decimal (s.raw / 10) };

    ghost merged_text = { λ p xs. codes "versions" };

    ghost name_text = { λ p n. decimal n.raw };

    ghost version_set_text = { λ p v. decimal v.0 };

    ghost string_text = { λ p s. codes "unknown" };

    ghost operands_below = { λ p c. tt };

    fn display_solvable<W: fmt::Write>(
        &self,
        solvable: SolvableId,
        f: &mut fmt::Formatter<W>,
    ) -> fmt::Result {
        let number = solvable.into_raw();
        write!(f, "{number}")
    }

    fn display_solvable_name<W: fmt::Write>(
        &self,
        solvable: SolvableId,
        f: &mut fmt::Formatter<W>,
    ) -> fmt::Result {
        let number = solvable.into_raw() / 10;
        write!(f, "{number}")
    }

    fn display_merged_solvables<W: fmt::Write>(
        &self,
        _solvables: &[SolvableId],
        f: &mut fmt::Formatter<W>,
    ) -> fmt::Result {
        f.write_str("versions")
    }

    fn display_name<W: fmt::Write>(&self, name: NameId, f: &mut fmt::Formatter<W>) -> fmt::Result {
        let number = name.into_raw();
        write!(f, "{number}")
    }

    fn display_version_set<W: fmt::Write>(
        &self,
        version_set: VersionSetId,
        f: &mut fmt::Formatter<W>,
    ) -> fmt::Result {
        let number = version_set.0;
        write!(f, "{number}")
    }

    fn display_string<W: fmt::Write>(
        &self,
        _string: StringId,
        f: &mut fmt::Formatter<W>,
    ) -> fmt::Result {
        f.write_str("unknown")
    }

    fn version_set_name(&self, version_set: VersionSetId) -> NameId {
        NameId::from_raw(version_set.0 / 10)
    }

    fn solvable_name(&self, solvable: SolvableId) -> NameId {
        NameId::from_raw(solvable.into_raw() / 10)
    }

    fn version_sets_in_union(&self, _union: VersionSetUnionId) -> &[VersionSetId] {
        self.members.as_slice()
    }

    fn resolve_condition(&self, _condition: ConditionId) -> Condition {
        Condition::Requirement(VersionSetId(0))
    }
}

impl DependencyProvider for Tens {
    ghost use Rattle.std.specs.Prelude.{nat_le, ⊤};
    ghost use Rattle.std.specs.List.Sorted.{IsPermutation};
    ghost use Rattle.resolvo_pool_tests.specs.Tens.{tens_listing, tens_named, tens_needs};

    type Cancel = u32;

    ghost matches = { λ p v s. nat_le v.0 s.raw };

    ghost candidates_of = { λ p n. tens_listing p.favored n };

    ghost dependencies_of = { λ p s. tens_needs s };

    ghost sorts = { λ p xs ys. IsPermutation xs ys };

    ghost may_cancel = { λ p c. ⊤ };

    ghost may_lack_ids = { λ p. ⊤ };

    ghost sorts_permute = { λ p xs ys h. h };

    ghost candidates_named = { λ p n. tens_named p.favored n };

    fn filter_candidates(
        &self,
        alloc: Global,
        candidates: &[SolvableId],
        version_set: VersionSetId,
        inverse: bool,
    ) -> R<Vec<SolvableId>> {
        self.count_question();
        let mut found = Vec::new(alloc);
        for candidate in candidates {
            if (version_set.0 <= candidate.into_raw()) != inverse {
                found.push(*candidate)?;
            }
        }
        Ok(found)
    }

    fn get_candidates(&self, alloc: Global, name: NameId) -> R<Option<Candidates<SolvableId>>> {
        self.count_question();
        let number = name.into_raw();
        if number > 2 {
            return Ok(None);
        }
        let mut all = Candidates::new(alloc);
        all.candidates.push(SolvableId::from_raw(number * 10))?;
        all.candidates.push(SolvableId::from_raw(number * 10 + 1))?;
        all.candidates.push(SolvableId::from_raw(number * 10 + 2))?;
        all.favored = self.favored;
        all.hint_dependencies_available = HintDependenciesAvailable::All;
        Ok(Some(all))
    }

    fn sort_candidates(&self, alloc: Global, candidates: &mut [SolvableId]) -> R<()> {
        self.count_question();
        candidates.sort_by_key(alloc, |s| Reverse(s.into_raw()))?;
        Ok(())
    }

    fn get_dependencies(&self, alloc: Global, solvable: SolvableId) -> R<Dependencies> {
        self.count_question();
        if solvable.into_raw() % 10 == 2 {
            return Ok(Dependencies::Unknown(StringId(0)));
        }
        Ok(Dependencies::Known(KnownDependencies {
            requirements: Vec::new(alloc),
            constrains: Vec::new(alloc),
        }))
    }

    fn should_cancel_with_value(&self) -> Option<u32> {
        let tests = self.tests.get().wrapping_add(1);
        self.tests.set(tests);
        if tests == self.cancels_at.get() {
            Some(tests)
        } else {
            None
        }
    }
}
