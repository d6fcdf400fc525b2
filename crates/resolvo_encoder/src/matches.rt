//! Clauses of matches, for the conditions' version sets of packages that are marked `many`: a
//! chosen match makes the version set's variable true. A candidate outside it may be chosen beside
//! a match, so it can't make a case false, as it does in other packages.
ghost use Rattle.std.specs.Prelude.{◌≡◌, ◌∷◌, [], true, OnOk, IfOk, IsErrOf, IsOkUnless};
ghost use Rattle.resolvo_pool_core.specs.declared.want.Want.TheVariants.{Memory, Ids};
ghost use Rattle.resolvo_sat.specs.RuleClauses.{Rule};
ghost use Rattle.resolvo_state.specs.SolverState.{LacksNumber};
ghost use Rattle.resolvo_encoder.specs.Steps.{IsBuilt, MarksPackage};
ghost use Rattle.resolvo_encoder.specs.ClauseRules.{EncodesRules, match_rules};
ghost use Rattle.resolvo_encoder.specs.AtLeastOneClauses.{HoldsMatches, CaseLiterals};

use crate::conditions::ConditionSet;
use crate::encoder::{Encoder, add_key};
use resolvo_packages::package_source::Offered;
use resolvo_pool_core::id::{Exact, VersionSetId};
use resolvo_pool_core::want::R;
use resolvo_state::atom::ProofAtom;
use resolvo_state::clause_kind::ClauseKind;
use resolvo_store_core::literal::Literal;
use std::alloc::Global;
use std::fmt::Debug;
use std::hash::Hash;

impl<N: Copy + Exact + Hash + Debug + Drop, S: Copy + Exact + Hash + Debug> Encoder<N, S> {
    /// Records whether a package is marked `many`. This adds no clause.
    pub fn mark(&mut self, name: N, many: bool) -> R<()>
        requires { IsBuilt self.old }
        ensures marks { OnOk result (MarksPackage S.eq name many self.old self.new) }
        ensures refusal { IsOkUnless result Memory }
    {
        if !many {
            return Ok(());
        }
        self.registry.mark_many(name)?;
        Ok(())
    }

    /// Encodes which candidates match the version set of a package that is marked `many`, and
    /// returns the literal of "no match is chosen".
    pub(crate) fn matches_literals(
        &mut self,
        alloc: Global,
        set: &ConditionSet<N, S>,
    ) -> R<Vec<Literal>>
        requires built { IsBuilt self.old }
        requires many { set.now.many ≡ true }
        ensures literals { IfOk result
            (λ v. CaseLiterals S.eq (set.now ∷ []) v.items self.old self.new) }
        ensures ids { IsErrOf result Ids → LacksNumber self.new.coding }
    {
        self.hold_matches(set.version_set, set.matching.as_slice())?;
        let matches = self.give(ProofAtom::Matches(set.version_set))?;
        let mut literals = Vec::new(alloc);
        literals.push(Literal::new(matches, true))?;
        Ok(literals)
    }

    /// Encodes which candidates match a version set, once for all cases.
    pub fn hold_matches(&mut self, version_set: VersionSetId, matching: &[Offered<N, S>]) -> R<()>
        requires { IsBuilt self.old }
        ensures held { OnOk result (HoldsMatches S.eq version_set matching.now self.old self.new) }
        ensures ids { IsErrOf result Ids → LacksNumber self.new.coding }
    {
        if self.recorded.matches.contains(&version_set) {
            return Ok(());
        }
        self.encode_matches(version_set, matching)?;
        add_key(&mut self.recorded.matches, version_set)?;
        Ok(())
    }

    /// Encodes that each of these matches a version set.
    fn encode_matches(&mut self, version_set: VersionSetId, matching: &[Offered<N, S>]) -> R<()>
        requires { IsBuilt self.old }
        ensures encodes { OnOk result
            (EncodesRules S.eq (match_rules version_set matching.now)
            self.old self.new) }
        ensures ids { IsErrOf result Ids → LacksNumber self.new.coding }
    {
        for one in matching {
            self.encode_match(version_set, one.solvable)?;
        }
        Ok(())
    }

    /// Encodes that a solvable matches a version set.
    fn encode_match(&mut self, version_set: VersionSetId, solvable: S) -> R<()>
        requires { IsBuilt self.old }
        ensures encodes { OnOk result
            (EncodesRules S.eq (Rule.matches version_set solvable ∷ [])
            self.old self.new) }
        ensures ids { IsErrOf result Ids → LacksNumber self.new.coding }
    {
        let first = self.give(ProofAtom::Solvable(solvable))?;
        let second = self.give(ProofAtom::Matches(version_set))?;
        let kind = ClauseKind::AnyMatch {
            version_set,
            solvable,
        };
        self.encode_pair(kind, first, Literal::new(second, false))?;
        Ok(())
    }
}
