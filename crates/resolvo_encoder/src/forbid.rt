//! Clauses that forbid solvables: constraints, locks, exclusions, and unknown dependencies. The
//! encoder adds them for each parent, and for the packages of its requirements and constraints.
ghost use Rattle.std.specs.Prelude.{◌≡◌, ◌⊎◌, ◌<◌, ◌∷◌, [], true, Option, Some, OnOk, IfOk, IsSome, Contains, IsErrOf};
ghost use Rattle.resolvo_pool_core.specs.declared.want.Want.TheVariants.{Ids};
ghost use Rattle.std.specs.Bool.{Decides};
ghost use Rattle.resolvo_store_core.specs.Clauses.{no, root as root_variable};
ghost use Rattle.resolvo_sat.specs.State.{count_of};
ghost use Rattle.resolvo_sat.specs.RuleClauses.{Rule, ForbidReason};
ghost use Rattle.resolvo_state.specs.Atoms.{Represents};
ghost use Rattle.resolvo_state.specs.SolverState.{IsCoding, LacksNumber};
ghost use Rattle.resolvo_state.specs.ClauseKinds.{rule_of};
ghost use Rattle.resolvo_state.specs.StoredKinds.{plain_kind, IsPlain};
ghost use Rattle.resolvo_encoder.specs.Encoded.{IsParentVariable};
ghost use Rattle.resolvo_encoder.specs.Steps.{IsBuilt, Extends};
ghost use Rattle.resolvo_encoder.specs.Effects.{Forbids, Limits, LimitsOutside, LeavesOut};
ghost use Rattle.resolvo_encoder.specs.ClauseRules.{IsPair, EncodesPair, EncodesRules, reason_of, forbid_rules, limit_rules, out_rules};

use crate::encoder::{Encoder, GATED, add_key, add_value};
use resolvo_packages::package_source::{ForbiddenBy, ForbiddenSolvable, Offered};
use resolvo_pool_core::id::{Exact, StringId, VariableId, VersionSetId};
use resolvo_pool_core::want::R;
use resolvo_state::atom::ProofAtom;
use resolvo_state::clause_kind::ClauseKind;
use resolvo_store_core::literal::Literal;
use std::fmt::Debug;
use std::hash::Hash;

impl<N: Copy + Exact + Hash + Debug + Drop, S: Copy + Exact + Hash + Debug> Encoder<N, S> {
    /// Whether the locks and exclusions of a package are encoded.
    pub fn is_encoded(&self, name: N) -> bool
        ensures { Decides result (Contains self.now.recorded.packages.keys name) }
    {
        self.recorded.packages.contains(name)
    }

    /// Whether clauses encode which candidates are outside a version set.
    pub fn is_left_out(&self, version_set: VersionSetId) -> bool
        ensures { Decides result (Contains self.now.recorded.version_sets.keys version_set) }
    {
        self.recorded.version_sets.contains(&version_set)
    }

    /// Encodes the locks and exclusions of a package.
    pub fn forbid(&mut self, name: N, barred: &[ForbiddenSolvable<S>]) -> R<()>
        requires { IsBuilt self.old }
        // After an answer.
        ensures encoded { OnOk result (Forbids S.eq name barred.now self.old self.new) }
        ensures lists { OnOk result (self.new.lists ≡ self.old.lists) }
        ensures registry { OnOk result (self.new.registry ≡ self.old.registry) }
        ensures kept { OnOk result (Extends self.old self.new) }
        ensures built { OnOk result (IsBuilt self.new) }
        // After a refusal.
        ensures ids { IsErrOf result Ids → LacksNumber self.new.coding }
    {
        self.forbid_each(barred)?;
        add_value(&mut self.recorded.packages, name)?;
        Ok(())
    }

    /// Forbids a solvable, since its dependencies are unknown.
    pub fn exclude(&mut self, solvable: S, reason: StringId) -> R<()>
        requires { IsBuilt self.old }
        ensures encodes { OnOk result
            (EncodesRules S.eq (Rule.forbids (ForbidReason.word reason) solvable ∷ [])
            self.old self.new) }
        ensures ids { IsErrOf result Ids → LacksNumber self.new.coding }
    {
        self.deny(solvable, ClauseKind::Excluded { solvable, reason })?;
        Ok(())
    }

    /// Encodes a parent's constraint: it forbids the candidates outside a version set. Where these
    /// are many, the clauses share an auxiliary variable.
    pub fn limit(
        &mut self,
        parent: Option<S>,
        version_set: VersionSetId,
        outside: &[Offered<N, S>],
    ) -> R<()>
        requires { IsBuilt self.old }
        // After an answer.
        ensures encoded { OnOk result
            (Limits S.eq parent version_set outside.now self.old self.new) }
        ensures lists { OnOk result (self.new.lists ≡ self.old.lists) }
        ensures kept { OnOk result (Extends self.old self.new) }
        ensures built { OnOk result (IsBuilt self.new) }
        // After a refusal.
        ensures ids { IsErrOf result Ids → LacksNumber self.new.coding }
    {
        if outside.len() < GATED {
            self.limit_each(parent, version_set, outside)?;
            return Ok(());
        }
        self.leave_out(version_set, outside)?;
        self.limit_outside(parent, version_set)?;
        Ok(())
    }

    /// Encodes which candidates are outside a version set, once for all parents.
    fn leave_out(&mut self, version_set: VersionSetId, outside: &[Offered<N, S>]) -> R<()>
        requires { IsBuilt self.old }
        // After an answer.
        ensures encoded { OnOk result
            (LeavesOut S.eq version_set outside.now self.old self.new) }
        ensures lists { OnOk result (self.new.lists ≡ self.old.lists) }
        ensures kept { OnOk result (Extends self.old self.new) }
        ensures built { OnOk result (IsBuilt self.new) }
        // After a refusal.
        ensures ids { IsErrOf result Ids → LacksNumber self.new.coding }
    {
        if self.is_left_out(version_set) {
            return Ok(());
        }
        self.encode_outside(version_set, outside)?;
        add_key(&mut self.recorded.version_sets, version_set)?;
        Ok(())
    }

    /// Forbids each of these.
    fn forbid_each(&mut self, barred: &[ForbiddenSolvable<S>]) -> R<()>
        requires { IsBuilt self.old }
        ensures encodes { OnOk result
            (EncodesRules S.eq (forbid_rules barred.now) self.old self.new) }
        ensures ids { IsErrOf result Ids → LacksNumber self.new.coding }
    {
        for one in barred {
            self.deny(one.solvable, forbid_kind(*one))?;
        }
        Ok(())
    }

    /// Encodes that a parent's version set forbids each of these.
    fn limit_each(
        &mut self,
        parent: Option<S>,
        version_set: VersionSetId,
        outside: &[Offered<N, S>],
    ) -> R<()>
        requires { IsBuilt self.old }
        ensures encodes { OnOk result
            (EncodesRules S.eq (limit_rules parent version_set outside.now)
            self.old self.new) }
        ensures ids { IsErrOf result Ids → LacksNumber self.new.coding }
    {
        for one in outside {
            self.limit_one(parent, version_set, one.solvable)?;
        }
        Ok(())
    }

    /// Encodes that each of these is outside a version set.
    fn encode_outside(&mut self, version_set: VersionSetId, outside: &[Offered<N, S>]) -> R<()>
        requires { IsBuilt self.old }
        ensures encodes { OnOk result
            (EncodesRules S.eq (out_rules version_set outside.now) self.old self.new) }
        ensures ids { IsErrOf result Ids → LacksNumber self.new.coding }
    {
        for one in outside {
            self.encode_out(version_set, one.solvable)?;
        }
        Ok(())
    }

    /// Forbids a solvable: by a unit clause, or by one that denies the root too, where another
    /// solvable is locked.
    fn deny(&mut self, solvable: S, kind: ClauseKind<N, S>) -> R<()>
        requires built { IsBuilt self.old }
        requires plain { IsPlain kind }
        requires rule { IsSome (rule_of (plain_kind kind)) }
        ensures encodes { OnOk result
            ((w : ForbidReason S)
            → rule_of (plain_kind kind) ≡ Some (Rule.forbids w solvable)
            → EncodesRules S.eq (Rule.forbids w solvable ∷ []) self.old self.new) }
        ensures ids { IsErrOf result Ids → LacksNumber self.new.coding }
    {
        let variable = self.give(ProofAtom::Solvable(solvable))?;
        let first = beside(&kind, variable);
        self.encode_pair(kind, first, Literal::new(variable, true))?;
        Ok(())
    }

    /// Encodes that a parent's version set forbids a solvable.
    fn limit_one(&mut self, parent: Option<S>, version_set: VersionSetId, barred: S) -> R<()>
        requires { IsBuilt self.old }
        ensures encodes { OnOk result
            (EncodesRules S.eq (Rule.limits parent version_set barred ∷ [])
            self.old self.new) }
        ensures ids { IsErrOf result Ids → LacksNumber self.new.coding }
    {
        let first = self.parent_variable(parent)?;
        let second = self.give(ProofAtom::Solvable(barred))?;
        let kind = ClauseKind::Constrains {
            parent,
            version_set,
            excluded: barred,
        };
        self.encode_pair(kind, first, Literal::new(second, true))?;
        Ok(())
    }

    /// Adds the clause from a parent to its constraint's auxiliary variable. It forbids the
    /// candidates outside the version set, where clauses encode which these are.
    pub fn limit_outside(&mut self, parent: Option<S>, version_set: VersionSetId) -> R<()>
        requires { IsBuilt self.old }
        // After an answer.
        ensures encodes { OnOk result
            (EncodesRules S.eq (Rule.limits_outside parent version_set ∷ [])
            self.old self.new) }
        ensures encoded { OnOk result
            (LimitsOutside S.eq parent version_set self.old self.new) }
        // After a refusal.
        ensures ids { IsErrOf result Ids → LacksNumber self.new.coding }
    {
        let first = self.parent_variable(parent)?;
        let second = self.give(ProofAtom::Outside(version_set))?;
        let kind = ClauseKind::ConstrainsParent {
            parent,
            version_set,
        };
        self.encode_pair(kind, first, Literal::new(second, true))?;
        Ok(())
    }

    /// Encodes that a solvable is outside a version set.
    fn encode_out(&mut self, version_set: VersionSetId, solvable: S) -> R<()>
        requires { IsBuilt self.old }
        ensures encodes { OnOk result
            (EncodesRules S.eq (Rule.is_out version_set solvable ∷ [])
            self.old self.new) }
        ensures ids { IsErrOf result Ids → LacksNumber self.new.coding }
    {
        let first = self.give(ProofAtom::Solvable(solvable))?;
        let second = self.give(ProofAtom::Outside(version_set))?;
        let kind = ClauseKind::ConstrainsExcluded {
            version_set,
            excluded: solvable,
        };
        self.encode_pair(kind, first, Literal::new(second, false))?;
        Ok(())
    }

    /// The variable of the root, or of a solvable.
    pub(crate) fn parent_variable(&mut self, parent: Option<S>) -> R<VariableId>
        requires { IsBuilt self.old }
        ensures encodes { OnOk result (EncodesRules S.eq [] self.old self.new) }
        ensures present { IfOk result (λ v. IsParentVariable self.new.coding.atoms.keys parent v) }
        ensures ids { IsErrOf result Ids → LacksNumber self.new.coding }
    {
        match parent {
            None => Ok(VariableId::root()),
            Some(solvable) => {
                // split for the prover: error and answer
                let variable = self.give(ProofAtom::Solvable(solvable))?;
                Ok(variable)
            }
        }
    }

    /// The variable of this origin, added where there is none.
    pub(crate) fn give(&mut self, atom: ProofAtom<N, S>) -> R<VariableId>
        requires { IsBuilt self.old }
        ensures encodes { OnOk result (EncodesRules S.eq [] self.old self.new) }
        ensures present { IfOk result (λ v. Represents self.new.coding.atoms.keys v atom) }
        ensures ids { IsErrOf result Ids → LacksNumber self.new.coding }
    {
        // split for the prover: error and answer
        let variable = self.coding.variable(atom)?;
        Ok(variable)
    }

    /// Encodes a rule by a clause of two literals: the first variable is false, or the second
    /// literal true.
    pub(crate) fn encode_pair(
        &mut self,
        kind: ClauseKind<N, S>,
        first: VariableId,
        second: Literal,
    ) -> R<()>
        requires coding { IsCoding self.old.coding }
        requires plain { IsPlain kind }
        requires rule { IsSome (rule_of (plain_kind kind)) }
        requires first { first.0 < count_of self.old.coding.search }
        requires second { second.variable.0 < count_of self.old.coding.search }
        // After an answer.
        ensures kind { OnOk result
            (EncodesPair (plain_kind kind) (no first) second self.old self.new) }
        // After a refusal.
        ensures ids { IsErrOf result Ids → LacksNumber self.new.coding }
    {
        let pair = [Literal::new(first, true), second];
        self.coding.add_clause(kind, distinct(&pair))?;
        Ok(())
    }
}

/// Both literals, or one where they are the same.
fn distinct(pair: &[Literal; 2]) -> &[Literal]
    ensures { (x y : Literal) → pair.now ≡ x ∷ y ∷ [] → IsPair x y result.now }
{
    if pair[0] == pair[1] {
        return &pair[..1];
    }
    pair
}

/// The variable that is denied beside that of a forbidden solvable: the root's for a lock, else the
/// same one.
fn beside<N, S>(kind: &ClauseKind<N, S>, variable: VariableId) -> VariableId
    ensures { (result ≡ variable) ⊎ (result ≡ root_variable) }
{
    match kind {
        ClauseKind::Lock { .. } => VariableId::root(),
        _ => variable,
    }
}

/// The kind of the clause that forbids a solvable for this reason.
fn forbid_kind<N, S: Copy>(barred: ForbiddenSolvable<S>) -> ClauseKind<N, S>
    ensures plain { IsPlain result }
    ensures rule { rule_of (plain_kind result)
        ≡ Some (Rule.forbids (reason_of barred.why) barred.solvable) }
{
    match barred.why {
        ForbiddenBy::Locked { locked } => ClauseKind::Lock {
            locked,
            other: barred.solvable,
        },
        ForbiddenBy::Excluded { reason } => ClauseKind::Excluded {
            solvable: barred.solvable,
            reason,
        },
    }
}
