//! The state of the encoder: clauses with their kinds, registered solvables, candidates of
//! requirements, the queue of requires clauses, parents, and deferred cases of conditions.
ghost use Rattle.std.specs.Prelude.{◌≡◌, ◌⊎◌, ◌<◌, ◌∷◌, ◌++◌, [], true, Some, None, OnOk, IfOk, IsSome, Contains, slice_get, length, ◌+◌, IsErrOf, IsOkUnless};
ghost use Rattle.resolvo_pool_core.specs.declared.want.Want.TheVariants.{Memory, Ids};
ghost use Rattle.indexmap.specs.IndexSet.{insert_key};
ghost use Rattle.resolvo_pool_core.specs.declared.solver_id.SolvableIdOrRoot.TheVariants.{Root, Solvable as Parent};
ghost use Rattle.resolvo_pool_core.specs.ByRequirement.{slot_of};
ghost use Rattle.resolvo_pool_core.specs.RuleKeeping.{Packages, Rules, IsLawful};
ghost use Rattle.resolvo_store_core.specs.AtMostOne.{IsPrefixOf};
ghost use Rattle.resolvo_store_core.specs.Clauses.{no, candidate_literals};
ghost use Rattle.resolvo_store_core.specs.Lists.{has_candidates, candidates_in, condition_in, IsEmpty};
ghost use Rattle.resolvo_sat.specs.State.{count_of};
ghost use Rattle.resolvo_sat.specs.Steps.{AreInRange};
ghost use Rattle.resolvo_state.specs.declared.atom.ProofAtom.TheVariants.{Gate};
ghost use Rattle.resolvo_state.specs.Atoms.{Represents};
ghost use Rattle.resolvo_encoder.specs.Encoded.{IsEncoding};
ghost use Rattle.resolvo_state.specs.ClauseKinds.{rule_of};
ghost use Rattle.resolvo_state.specs.StoredKinds.{plain_kind, IsPlain};
ghost use Rattle.resolvo_state.specs.Kinds.{Kind};
ghost use Rattle.resolvo_state.specs.SolverState.{IsBegun, IsCoding, LacksNumber};
ghost use Rattle.resolvo_encoder.specs.Effects.{RequiresOffered, RequiresAgain, SharesGate};
ghost use Rattle.resolvo_encoder.specs.Steps.{Fixes, EncodesNeed, IsBuilt, Needs, Extends, NeedsDirectly, UsesGate, is_gated, Opens, AddsCandidates, IsBegunEncoding, AddsParent, IsNextEncoded, LacksNumberFor};

use crate::fired_cases::FiredCases;
use indexmap::IndexSet;
use resolvo_decide::decide_queue::DecideQueue;
use resolvo_packages::package_source::Offered;
use resolvo_pool_core::id::{DisjunctionId, Exact, VariableId, VersionSetId};
use resolvo_pool_core::ordered_set::OrderedSet;
use resolvo_pool_core::requirement::{ConditionalRequirement, Requirement, RequirementMap};
use resolvo_pool_core::solver_id::SolvableIdOrRoot;
use resolvo_pool_core::want::R;
use resolvo_state::atom::ProofAtom;
use resolvo_state::clause_kind::{ClauseKind, Need};
use resolvo_state::registry::Registry;
use resolvo_state::solver_state::SolverState;
use resolvo_store_core::conditions::DeferredConjunct;
use resolvo_store_core::lists::{Candidate, FixedLists};
use resolvo_store_core::literal::Literal;
use resolvo_store_core::pick::NeedClause;
use std::alloc::Global;
use std::fmt::Debug;
use std::hash::Hash;

/// From this many candidates on, a requirement gets a gate, and a constraint an auxiliary variable
/// for the candidates outside.
pub const GATED: usize = 4;

/// The packages, version sets and solvables that are encoded once, as a whole.
pub struct EncodedOnce<N: Copy + Exact + Hash, S: Copy + Exact + Hash> {
    /// The packages whose locks and exclusions are encoded.
    pub packages: OrderedSet<N>,
    /// The version sets for which clauses encode which candidates are outside.
    pub version_sets: IndexSet<VersionSetId>,
    /// The version sets for which clauses encode which candidates match. Their packages are marked
    /// `many`.
    pub matches: IndexSet<VersionSetId>,
    /// The packages of encoded cases: each of their registered solvables has an at-least-one
    /// clause.
    pub at_least_one: OrderedSet<N>,
    /// The packages of newly encoded cases, whose at-least-one clauses wait for the encoding's end.
    pub queued: IndexSet<N>,
    /// The solvables with an at-least-one clause.
    pub there: OrderedSet<S>,
    /// The accepted soft requirements, then the one of the current turn. An equal one may occur
    /// twice.
    pub softs: Vec<S>,
}

// split for the prover: one drop
impl<N: Copy + Exact + Hash, S: Copy + Exact + Hash> Drop for EncodedOnce<N, S> {
    fn drop(self) {
        let EncodedOnce {
            packages: _,
            version_sets: _,
            matches: _,
            at_least_one: _,
            queued: _,
            there: _,
            softs: _,
        } = self;
    }
}

/// A case of a parent's requirement, deferred until each of its version sets has a chosen match.
#[derive(Drop)]
pub struct Deferred<S> {
    pub parent: Option<S>,
    pub need: ConditionalRequirement,
    pub conjuncts: Vec<DeferredConjunct<S>>,
}

/// The state of the encoder.
pub struct Encoder<N: Copy + Exact + Hash, S: Copy + Exact + Hash> {
    /// The CDCL core, with the origin of each variable and the kind of each clause.
    pub coding: SolverState<N, S>,
    /// The registered solvables of each package.
    pub registry: Registry<N>,
    /// The candidates of requirements, and the literals of cases.
    pub lists: FixedLists<N>,
    /// The requires clauses, from which the next decision is taken.
    pub queue: DecideQueue<N>,
    /// The gate of each requirement that has one.
    pub gates: RequirementMap<VariableId>,
    /// The packages, version sets and solvables that are encoded once.
    pub recorded: EncodedOnce<N, S>,
    /// The parents whose requirements are to be encoded, in order of arrival.
    pub parents: OrderedSet<SolvableIdOrRoot<S>>,
    /// The number of encoded parents.
    pub encoded: usize,
    /// The cases of conditional requirements, in the order of their parents.
    pub deferred: Vec<Deferred<S>>,
    /// The places of the encoded cases.
    pub fired: FiredCases,
    /// The literals of the requires clause that was added last.
    pub literals: Vec<Literal>,
}

// split for the prover: one drop
impl<N: Copy + Exact + Hash, S: Copy + Exact + Hash> Drop for Encoder<N, S> {
    fn drop(self) {
        let Encoder {
            coding: _,
            registry: _,
            lists: _,
            queue: _,
            gates: _,
            recorded: _,
            parents: _,
            encoded: _,
            deferred: _,
            fired: _,
            literals: _,
        } = self;
    }
}

/// The encoder of these new parts, otherwise empty.
fn begun<N: Copy + Exact + Hash + Debug, S: Copy + Exact + Hash + Debug>(
    alloc: Global,
    coding: SolverState<N, S>,
    lists: FixedLists<N>,
    gates: RequirementMap<VariableId>,
    parents: OrderedSet<SolvableIdOrRoot<S>>,
) -> Encoder<N, S>
    requires coding { IsBegun coding }
    requires lists { IsEmpty lists }
    requires gates { (r : Requirement) → slot_of gates r ≡ None }
    requires parents { parents.keys ≡ Root ∷ [] }
    ensures { IsBegunEncoding result }
{
    Encoder {
        coding,
        registry: Registry::new(alloc),
        lists,
        queue: DecideQueue::new(alloc),
        gates,
        recorded: EncodedOnce {
            packages: OrderedSet::new(alloc),
            version_sets: IndexSet::new(alloc),
            matches: IndexSet::new(alloc),
            at_least_one: OrderedSet::new(alloc),
            queued: IndexSet::new(alloc),
            there: OrderedSet::new(alloc),
            softs: Vec::new(alloc),
        },
        parents,
        encoded: 0,
        deferred: Vec::new(alloc),
        fired: FiredCases::new(alloc),
        literals: Vec::new(alloc),
    }
}

impl<N: Copy + Exact + Hash + Debug + Drop, S: Copy + Exact + Hash + Debug> Encoder<N, S> {
    /// The encoder with only the root, whose requirements are to be encoded.
    pub fn begin(alloc: Global) -> R<Encoder<N, S>>
        ensures begun { IfOk result IsBegunEncoding }
        ensures encoding { IfOk result
            (λ e. (p : Packages N S) (root : Rules) → IsLawful p → IsEncoding S.eq p root e) }
        ensures built { IfOk result IsBuilt }
        ensures refusal { IsOkUnless result Memory }
    {
        let mut parents = OrderedSet::new(alloc);
        parents.push(SolvableIdOrRoot::Root)?;
        let lists = FixedLists::new(alloc)?;
        let gates = RequirementMap::new(alloc)?;
        let coding = SolverState::begin(alloc)?;
        Ok(begun(alloc, coding, lists, gates, parents))
    }

    /// Encodes a parent's unconditional requirement over the offered candidates. Where they are
    /// many, and the parent isn't the root, it uses a gate.
    pub fn require(
        &mut self,
        alloc: Global,
        parent: Option<S>,
        need: ConditionalRequirement,
        offered: &[Offered<N, S>],
    ) -> R<()>
        requires { IsBuilt self.old }
        // After an answer.
        ensures encoded { OnOk result
            (RequiresOffered S.eq parent need offered.now self.old self.new) }
        ensures candidates { OnOk result
            (AddsCandidates need.requirement offered.now self.old self.new) }
        ensures kept { OnOk result (Extends self.old self.new) }
        ensures built { OnOk result (IsBuilt self.new) }
        // After a refusal.
        ensures ids { IsErrOf result Ids → LacksNumberFor need.requirement self.new }
    {
        self.fix_candidates(alloc, need.requirement, offered)?;
        self.require_again(parent, need)?;
        Ok(())
    }

    /// Whether a requirement has its candidates.
    pub fn is_fixed(&self, requirement: Requirement) -> bool
        ensures { result ≡ has_candidates self.now.lists requirement }
    {
        self.lists.candidates(requirement).is_some()
    }

    /// Encodes a parent's unconditional requirement, which has its candidates. Where they are many,
    /// and the parent isn't the root, it uses a gate.
    pub fn require_again(&mut self, parent: Option<S>, need: ConditionalRequirement) -> R<()>
        requires { IsBuilt self.old }
        // After an answer.
        ensures encoded { OnOk result (RequiresAgain S.eq parent need self.old self.new) }
        ensures gate { OnOk result (UsesGate parent need.requirement self.old self.new) }
        ensures lists { OnOk result (self.new.lists ≡ self.old.lists) }
        ensures kept { OnOk result (Extends self.old self.new) }
        ensures built { OnOk result (IsBuilt self.new) }
        // After a refusal.
        ensures ids { IsErrOf result Ids → LacksNumberFor need.requirement self.new }
    {
        match parent {
            None => {
                self.need_directly(VariableId::root(), None, need.requirement)?;
                Ok(())
            }
            Some(solvable) => {
                self.require_of(solvable, need)?;
                Ok(())
            }
        }
    }

    /// Whether a requirement has so many candidates that it gets a gate.
    fn is_gated(&self, requirement: Requirement) -> bool
        ensures { result ≡ is_gated self.now.lists requirement }
    {
        match self.lists.candidates(requirement) {
            Some(candidates) => GATED <= candidates.len(),
            None => false,
        }
    }

    /// Encodes a solvable's requirement, which has its candidates. Where they are many, it uses a
    /// gate.
    fn require_of(&mut self, solvable: S, need: ConditionalRequirement) -> R<()>
        requires { IsBuilt self.old }
        // After an answer.
        ensures encoded { OnOk result (RequiresAgain S.eq (Some solvable) need self.old self.new) }
        ensures gate { OnOk result (UsesGate (Some solvable) need.requirement self.old self.new) }
        ensures lists { OnOk result (self.new.lists ≡ self.old.lists) }
        ensures kept { OnOk result (Extends self.old self.new) }
        ensures built { OnOk result (IsBuilt self.new) }
        // After a refusal.
        ensures ids { IsErrOf result Ids → LacksNumberFor need.requirement self.new }
    {
        let variable = self.coding.variable(ProofAtom::Solvable(solvable))?;
        if !self.is_gated(need.requirement) {
            self.need_directly(variable, Some(solvable), need.requirement)?;
            return Ok(());
        }
        let gate = self.gate(need.requirement)?;
        self.open_gate(solvable, variable, gate, need.requirement)?;
        Ok(())
    }

    /// Registers the offered solvables as a requirement's candidates, once.
    pub(crate) fn fix_candidates(
        &mut self,
        alloc: Global,
        requirement: Requirement,
        offered: &[Offered<N, S>],
    ) -> R<()>
        requires { IsBuilt self.old }
        ensures fixed { OnOk result (Fixes S.eq requirement offered.now self.old self.new) }
        ensures ids { IsErrOf result Ids → LacksNumberFor requirement self.new }
    {
        if self.lists.candidates(requirement).is_some() {
            return Ok(());
        }
        let candidates = self.register(alloc, offered)?;
        self.lists
            .fix_candidates(requirement, candidates.as_slice())?;
        Ok(())
    }

    /// Encodes a requirement without a gate.
    fn need_directly(
        &mut self,
        variable: VariableId,
        parent: Option<S>,
        requirement: Requirement,
    ) -> R<()>
        requires built { IsBuilt self.old }
        requires in_range { variable.0 < count_of self.old.coding.search }
        ensures needed { OnOk result
            (NeedsDirectly parent requirement variable self.old self.new) }
        ensures ids { IsErrOf result Ids → LacksNumber self.new.coding }
    {
        let kind = ClauseKind::Requires {
            parent,
            requirement,
        };
        self.encode_need(kind, variable, requirement)?;
        Ok(())
    }

    /// Adds a requires clause without a condition, and puts it into the decision queue: a variable
    /// is false, or a candidate is chosen.
    fn encode_need(
        &mut self,
        kind: ClauseKind<N, S>,
        variable: VariableId,
        requirement: Requirement,
    ) -> R<()>
        requires coding { IsCoding self.old.coding }
        requires plain { IsPlain kind }
        requires rule { IsSome (rule_of (plain_kind kind)) }
        requires in_range { AreInRange (count_of self.old.coding.search)
            (no variable ∷ candidate_literals (candidates_in self.old.lists requirement)) }
        ensures kind { OnOk result
            (EncodesNeed (plain_kind kind) variable None requirement self.old self.new) }
        ensures ids { IsErrOf result Ids → LacksNumber self.new.coding }
    {
        put_literals(&self.lists, variable, None, requirement, &mut self.literals)?;
        let clause = self.coding.add_clause(kind, self.literals.as_slice())?;
        self.queue.register_clause(NeedClause {
            parent: variable,
            requirement,
            condition: None,
            clause,
        })?;
        Ok(())
    }

    /// Adds a requires clause for a case of a condition, and puts it into the decision queue. A
    /// variable is false, or a literal of the case is true, or a candidate is chosen.
    pub(crate) fn encode_case(
        &mut self,
        need: Need<S>,
        variable: VariableId,
        condition: DisjunctionId,
    ) -> R<()>
        requires coding { IsCoding self.old.coding }
        requires in_range { AreInRange (count_of self.old.coding.search)
            (no variable
            ∷ (condition_in self.old.lists (Some condition) ++ candidate_literals
            (candidates_in self.old.lists need.need.requirement))) }
        ensures kind { OnOk result
            (EncodesNeed (Kind.Needs need.parent need.need need.case) variable (Some condition)
            need.need.requirement self.old self.new) }
        ensures ids { IsErrOf result Ids → LacksNumber self.new.coding }
    {
        let condition = Some(condition);
        let requirement = need.need.requirement;
        put_literals(
            &self.lists,
            variable,
            condition,
            requirement,
            &mut self.literals,
        )?;
        let clause = self.coding.add_case(need, self.literals.as_slice())?;
        self.queue.register_clause(NeedClause {
            parent: variable,
            requirement,
            condition,
            clause,
        })?;
        Ok(())
    }

    /// The variable of a requirement's gate, added with its clause where there is none.
    fn gate(&mut self, requirement: Requirement) -> R<VariableId>
        requires { IsBuilt self.old }
        // After an answer.
        ensures encoded { OnOk result (SharesGate S.eq requirement self.old self.new) }
        ensures present { IfOk result
            (λ gate. Represents self.new.coding.atoms.keys gate (Gate requirement)) }
        ensures recorded { IfOk result (λ gate. slot_of self.new.gates requirement ≡ Some gate) }
        ensures lists { OnOk result (self.new.lists ≡ self.old.lists) }
        ensures kept { OnOk result (Extends self.old self.new) }
        ensures built { OnOk result (IsBuilt self.new) }
        // After a refusal.
        ensures ids { IsErrOf result Ids → LacksNumberFor requirement self.new }
    {
        if let Some(gate) = self.gates.get(requirement) {
            return Ok(*gate);
        }
        let gate = self.coding.variable(ProofAtom::Gate(requirement))?;
        let kind = ClauseKind::GateRequires { requirement };
        self.encode_need(kind, gate, requirement)?;
        self.gates.insert(requirement, gate)?;
        Ok(gate)
    }

    /// Adds the clause from a solvable to a gate.
    fn open_gate(
        &mut self,
        solvable: S,
        variable: VariableId,
        gate: VariableId,
        requirement: Requirement,
    ) -> R<()>
        requires coding { IsCoding self.old.coding }
        requires in_range { variable.0 < count_of self.old.coding.search }
        requires gate_in_range { gate.0 < count_of self.old.coding.search }
        ensures opened { OnOk result (Opens solvable variable gate requirement self.old self.new) }
        ensures ids { IsErrOf result Ids → LacksNumber self.new.coding }
    {
        let literals = [Literal::new(variable, true), Literal::new(gate, false)];
        let kind = ClauseKind::RequiresGate {
            solvable,
            requirement,
        };
        self.coding.add_clause(kind, &literals)?;
        Ok(())
    }

    /// The parent whose requirements are to be encoded next, if one is left.
    pub fn next_parent(&self) -> Option<SolvableIdOrRoot<S>>
        ensures parent { result ≡ slice_get self.now.parents.keys self.now.encoded }
        ensures bounded { self.now.encoded < 18446744073709551616 }
    {
        self.parents.get_index(self.encoded).copied()
    }

    /// Adds a solvable to the parents, unless it is one.
    pub fn add_parent(&mut self, solvable: S) -> R<()>
        ensures added { OnOk result (AddsParent self.old self.new) }
        ensures encoding { OnOk result
            ((p : Packages N S) (root : Rules)
            → IsEncoding S.eq p root self.old
            → IsEncoding S.eq p root self.new) }
        ensures built { OnOk result (IsBuilt self.old → IsBuilt self.new) }
        ensures present { OnOk result (Contains self.new.parents.keys (Parent solvable)) }
        ensures refusal { IsOkUnless result Memory }
    {
        add_value(&mut self.parents, SolvableIdOrRoot::Solvable(solvable))?;
        Ok(())
    }

    /// Marks the next parent as encoded.
    pub fn end_parent(&mut self)
        requires { self.old.encoded < length self.old.parents.keys }
        ensures next { self.new ≡ record self.old { encoded = self.old.encoded + 1 } }
        ensures encoding { (p : Packages N S) (root : Rules)
            → IsEncoding S.eq p root self.old
            → IsNextEncoded S.eq p root self.old
            → IsEncoding S.eq p root self.new }
        ensures built { IsBuilt self.old → IsBuilt self.new }
        ensures bounded { self.old.encoded < 18446744073709551615 }
    {
        if self.encoded < self.parents.len() {
            self.encoded += 1;
        }
    }
}

/// Puts the literals of a requires clause in place of the others: the denial of the parent or gate,
/// the condition's, and the candidates'.
fn put_literals<N: Copy + Drop>(
    lists: &FixedLists<N>,
    variable: VariableId,
    condition: Option<DisjunctionId>,
    requirement: Requirement,
    literals: &mut Vec<Literal>,
) -> R<()>
    requires { variable.0 < 2147483648 }
    ensures literals { OnOk result
        (literals.new.items ≡ no variable
        ∷ (condition_in lists.now condition ++ candidate_literals
        (candidates_in lists.now requirement))) }
    ensures refusal { IsOkUnless result Memory }
{
    literals.clear();
    literals.push(Literal::new(variable, true))?;
    if let Some(condition) = lists.condition(condition) {
        literals.extend_from_slice(condition)?;
    }
    if let Some(candidates) = lists.candidates(requirement) {
        push_candidates(candidates, literals)?;
    }
    Ok(())
}

/// Appends the literals of candidates.
pub(crate) fn push_candidates<N>(candidates: &[Candidate<N>], literals: &mut Vec<Literal>) -> R<()>
    ensures pushed { OnOk result
        (literals.new.items ≡ literals.old.items ++ candidate_literals candidates.now) }
    ensures refusal { IsOkUnless result Memory }
{
    for candidate in candidates {
        literals.push(candidate.literal)?;
    }
    Ok(())
}

/// Appends a value, unless it is in the set.
pub fn add_value<K: Copy + Exact + Hash + Drop>(keys: &mut OrderedSet<K>, key: K) -> R<()>
    ensures added { OnOk result (keys.new.keys ≡ insert_key K.eq keys.old.keys key) }
    ensures prefix { OnOk result (IsPrefixOf keys.old.keys keys.new.keys) }
    ensures present { OnOk result (Contains keys.new.keys key) }
    ensures only { OnOk result
        ((other : K)
        → Contains keys.new.keys other
        → Contains keys.old.keys other ⊎ (other ≡ key)) }
    ensures refusal { IsOkUnless result Memory }
{
    if keys.contains(key) {
        return Ok(());
    }
    keys.push(key)?;
    Ok(())
}

/// Appends a value, unless it is in the set.
pub fn add_key<K: Copy + Eq + Hash + Drop>(keys: &mut IndexSet<K>, key: K) -> R<()>
    ensures prefix { OnOk result (IsPrefixOf keys.old.keys keys.new.keys) }
    ensures present { OnOk result
        (((other : K) → K.eq key other ≡ true → other ≡ key) → Contains keys.new.keys key) }
    ensures only { OnOk result
        ((other : K)
        → Contains keys.new.keys other
        → Contains keys.old.keys other ⊎ (other ≡ key)) }
    ensures added { OnOk result (keys.new.keys ≡ insert_key K.eq keys.old.keys key) }
    ensures refusal { IsOkUnless result Memory }
{
    keys.insert(key)?;
    Ok(())
}
