//! The registered solvables of each package: at most one of them is true.
//! Each package has a tracker of its solvables' variables. Their places are encoded in binary
//! digits, each digit a variable of its own. For each solvable in a tracker and each digit of its
//! package, a clause gives the value of the digit where the solvable is true. A solvable that is
//! registered waits for them until it is placed. A package that is marked `many` has no tracker: its
//! solvables may be true side by side.
ghost use Rattle.std.proofs.lemmas.Bool.{and_parts, eqb-true};
ghost use Rattle.std.specs.Bool.{Decides};
ghost use Rattle.std.specs.Prelude.{◌≡◌, ◌<◌, ◌≤◌, Bool, false, None, map, length, is_some, IfOk, IfSome, OnOk, IsErrOf, IsOkUnless, Contains};
ghost use Rattle.resolvo_pool_core.specs.declared.want.Want.TheVariants.{Memory, Ids};
ghost use Rattle.resolvo_pool_core.specs.declared.id.VariableId.{VariableId};
ghost use Rattle.resolvo_store_core.specs.AtMostOne.{needs_helper, ties, tie_all};
ghost use Rattle.resolvo_state.specs.declared.atom.ProofAtom.TheVariants.{Solvable, Bit};
ghost use Rattle.resolvo_pool_core.specs.Indexes.{no_index};
ghost use Rattle.resolvo_state.specs.AtomLaws.{one_member};
ghost use Rattle.resolvo_state.specs.Atoms.{Represents};
ghost use Rattle.resolvo_state.specs.SolverState.{IsCoding, LacksNumber};
ghost use Rattle.resolvo_state.specs.Keys.{AreOnce};
ghost use Rattle.resolvo_state.specs.Registered.{same_variable, IsNothing, AreTied, IsInTracker, IsTracked, IsQueued, IsRegistered, member, IsMany, MarksMany, Registers, Places, PlacesName, IsTied, Tracks, GivesDigit, IsTie, AreTies, AreDigits, first_of, AddsTie, AddsTies};

use crate::atom::ProofAtom;
use crate::clause_kind::ClauseKind;
use crate::keys::include;
use crate::members::Members;
use crate::solver_state::SolverState;
use indexmap::IndexSet;
use resolvo_pool_core::id::{Exact, VariableId};
use resolvo_pool_core::ordered_set::OrderedSet;
use resolvo_pool_core::want::R;
use resolvo_store_core::binary_encoding::AtMostOnceTracker;
use resolvo_store_core::literal::Literal;
use std::alloc::Global;
use std::fmt::Debug;
use std::hash::Hash;

/// A registered variable, with its package.
#[derive(Clone, Copy, PartialEq, Eq, Hash)]
pub struct Member<N> {
    pub name: N,
    pub variable: VariableId,
}

impl<N: Exact> Exact for Member<N> {
    ghost indexed = { λ m. None };

    ghost alone = { λ m n i h k. no_index h };

    fn index(&self) -> Option<u32> {
        None
    }

    ghost exact = { one_member Self.eq
        (λ m n v w h. (N.exact m n (and_parts _ _ h).0, eqb-true v.0 w.0 (and_parts _ _ h).1)) };
}

/// The packages with solvables in their trackers, and the registered solvables' variables.
pub struct Registry<N: Copy + Exact + Hash> {
    names: OrderedSet<N>,
    trackers: Vec<AtMostOnceTracker<VariableId>>,
    /// The registered variables with their packages, in the order of registration.
    members: Members<N>,
    /// The number of those that don't wait for their digits: the first ones.
    tied: usize,
    /// The packages that are marked `many`: their solvables have no digits.
    many: IndexSet<N>,
}

// split for the prover: one drop
impl<N: Copy + Exact + Hash> Drop for Registry<N> {
    fn drop(self) {
        let Registry {
            names: _,
            trackers: _,
            members: _,
            tied: _,
            many: _,
        } = self;
    }
}

/// A variable of a solvable, one of a digit of its package, and the digit's value where the
/// solvable is true.
type Tie = (VariableId, VariableId, bool);

impl<N: Copy + Exact + Hash + Debug> Registry<N> {
    /// An empty registry.
    pub fn new(alloc: Global) -> Registry<N>
        ensures { IsNothing result }
    {
        Registry {
            names: OrderedSet::new(alloc),
            trackers: Vec::new(alloc),
            members: Members::new(alloc),
            tied: 0,
            many: IndexSet::new(alloc),
        }
    }

    /// Marks a package `many`: those of its solvables that wait get no digits.
    pub fn mark_many(&mut self, name: N) -> R<()>
        ensures marked { OnOk result (MarksMany name self.old self.new) }
        ensures refusal { IsOkUnless result Memory }
    {
        include(&mut self.many, name)?;
        Ok(())
    }

    /// Whether a package is marked.
    pub fn is_many(&self, name: N) -> bool
        ensures { Decides result (IsMany self.now name) }
    {
        self.many.contains(&name)
    }

    /// Registers a solvable of a package, and returns its variable, which is created where there is
    /// none. A new one waits for its digits.
    #[inline(always)]
    pub fn register<S: Copy + Exact + Hash + Debug>(
        &mut self,
        coding: &mut SolverState<N, S>,
        name: N,
        solvable: S,
    ) -> R<VariableId>
        requires coding { IsCoding coding.old }
        requires tied { AreTied self.old coding.old }
        ensures registered { IfOk result
            (λ v. Registers name solvable v self.old coding.old self.new coding.new) }
        ensures ids { IsErrOf result Ids → LacksNumber coding.new }
    {
        if let Some(variable) = self.registered(coding, name, solvable) {
            return Ok(variable);
        }
        self.register_new(coding, name, solvable)
    }

    /// The variable of a solvable that is registered, if the package is its last one.
    #[inline(always)]
    fn registered<S: Copy + Exact + Hash + Debug>(
        &self,
        coding: &SolverState<N, S>,
        name: N,
        solvable: S,
    ) -> Option<VariableId>
        requires { IsCoding coding.now }
        ensures { IfSome result
            (λ v. Represents coding.now.atoms.keys v (Solvable solvable) × IsTracked self.now name v) }
    {
        let variable = coding.find(ProofAtom::Solvable(solvable))?;
        if self.members.is_last(Member { name, variable }) {
            Some(variable)
        } else {
            None
        }
    }

    /// Registers a solvable of a package, and returns its variable, which is created where there is
    /// none.
    fn register_new<S: Copy + Exact + Hash + Debug>(
        &mut self,
        coding: &mut SolverState<N, S>,
        name: N,
        solvable: S,
    ) -> R<VariableId>
        requires coding { IsCoding coding.old }
        requires tied { AreTied self.old coding.old }
        ensures registered { IfOk result
            (λ v. Registers name solvable v self.old coding.old self.new coding.new) }
        ensures ids { IsErrOf result Ids → LacksNumber coding.new }
    {
        let variable = coding.variable(ProofAtom::Solvable(solvable))?;
        self.members.insert(Member { name, variable })?;
        Ok(variable)
    }

    /// The registered variables that wait for their digits, in the order of registration.
    pub fn queued(&self) -> &[Member<N>]
        requires { self.now.tied ≤ length self.now.members.keys }
        ensures waiting { (name : N) (v : VariableId)
            → IsQueued self.now name v → Contains result.now (member name v) }
        ensures registered { (name : N) (v : VariableId)
            → Contains result.now (member name v) → IsTracked self.now name v }
    {
        &self.members.as_slice()[self.tied..]
    }

    /// Ends the wait of those that wait: they are in their trackers.
    pub fn end_queue(&mut self)
        ensures { self.new ≡ record self.old { tied = length self.old.members.keys } }
    {
        self.tied = self.members.len();
    }

    /// Puts a registered solvable into its package's tracker. Adds the clauses that tie it to each
    /// digit, and those that tie earlier ones to a new digit.
    pub fn place<S: Copy + Exact + Hash + Debug>(
        &mut self,
        coding: &mut SolverState<N, S>,
        name: N,
        solvable: S,
    ) -> R<()>
        requires coding { IsCoding coding.old }
        requires tied { AreTied self.old coding.old }
        requires registered { IsRegistered self.old coding.old name solvable }
        ensures placed { OnOk result (Places name solvable self.old coding.old self.new coding.new) }
        ensures ids { IsErrOf result Ids → LacksNumber coding.new }
    {
        let alloc = *self.trackers.allocator();
        let variable = coding.variable(ProofAtom::Solvable(solvable))?;
        let place = self.place_of(alloc, name)?;
        track(&mut self.trackers[place], coding, name, variable)?;
        Ok(())
    }

    /// The variables in a package's tracker.
    pub fn variables(&self, name: N) -> &[VariableId]
        requires each { length self.now.names.keys ≡ length self.now.trackers.items }
        requires once { AreOnce self.now.names.keys }
        ensures tracked { (v : VariableId) → Contains result.now v → IsInTracker self.now name v }
        ensures all { (v : VariableId) → IsInTracker self.now name v → Contains result.now v }
    {
        match self.names.place_of(name) {
            Some(place) => self.trackers[place].variables(),
            None => &[],
        }
    }

    /// The place of a package, which is appended where it has none.
    fn place_of(&mut self, alloc: Global, name: N) -> R<usize>
        requires { length self.old.names.keys ≡ length self.old.trackers.items }
        ensures place { IfOk result (λ place. PlacesName name place self.old self.new) }
        ensures refusal { IsOkUnless result Memory }
    {
        if let Some(place) = self.names.place_of(name) {
            return Ok(place);
        }
        let place = self.trackers.len();
        self.trackers.push(AtMostOnceTracker::new(alloc))?;
        self.names.push(name)?;
        Ok(place)
    }
}

/// Tracks the variable of a solvable, unless it is tracked. Adds the clauses that tie it to the
/// digits of its package, and those that tie earlier ones to a new digit.
fn track<N: Copy + Exact + Hash + Debug, S: Copy + Exact + Hash + Debug>(
    tracker: &mut AtMostOnceTracker<VariableId>,
    coding: &mut SolverState<N, S>,
    name: N,
    variable: VariableId,
) -> R<()>
    requires coding { IsCoding coding.old }
    requires tied { IsTied name tracker.old coding.old }
    requires solvable { (s : S) × Represents coding.old.atoms.keys variable (Solvable s) }
    ensures tracked { OnOk result
        (Tracks name variable tracker.old coding.old tracker.new coding.new) }
    ensures ids { IsErrOf result Ids → LacksNumber coding.new }
{
    if tracker.contains(variable) {
        return Ok(());
    }
    let digit = next_digit(tracker, coding, name, variable)?;
    add_ties(coding, name, tracker, variable, digit)?;
    tracker.track(variable, digit)?;
    Ok(())
}

/// The variable of the new digit that a variable needs, if it needs one.
fn next_digit<N: Copy + Exact + Hash + Debug, S: Copy + Exact + Hash + Debug>(
    tracker: &AtMostOnceTracker<VariableId>,
    coding: &mut SolverState<N, S>,
    name: N,
    variable: VariableId,
) -> R<Option<VariableId>>
    requires { IsCoding coding.old }
    ensures digit { IfOk result
        (λ digit. GivesDigit name (length tracker.now.helpers) digit coding.old coding.new) }
    ensures needed { IfOk result
        (λ digit. is_some digit ≡ needs_helper same_variable tracker.now variable) }
    ensures ids { IsErrOf result Ids → LacksNumber coding.new }
{
    if !tracker.needs_helper(variable) {
        return Ok(None);
    }
    // for the prover: a slice has fewer than 2^64 items, so its digits are few and fit a u32
    let _count = tracker.variables().len();
    let bit = tracker.helpers().len() as u32;
    let digit = coding.variable(ProofAtom::Bit(name, bit))?;
    Ok(Some(digit))
}

/// Adds the clauses that tie a new variable to the digits of its package. Those that tie the earlier
/// ones to a new digit come first.
fn add_ties<N: Copy + Exact + Hash + Debug, S: Copy + Exact + Hash + Debug>(
    coding: &mut SolverState<N, S>,
    name: N,
    tracker: &AtMostOnceTracker<VariableId>,
    variable: VariableId,
    digit: Option<VariableId>,
) -> R<()>
    requires coding { IsCoding coding.old }
    requires few { length tracker.now.variables < 4294967296 }
    requires solvable { (s : S) × Represents coding.old.atoms.keys variable (Solvable s) }
    requires digits { AreDigits name coding.old.atoms.keys tracker.now.helpers }
    requires few_digits { length tracker.now.helpers ≤ 32 }
    requires ties { AreTies name coding.old.atoms.keys
        (first_of digit (length tracker.now.variables)) (length tracker.now.variables)
        (tie_all tracker.now.variables tracker.now.helpers variable digit) }
    ensures encoded { OnOk result (AddsTies name
        (tie_all tracker.now.variables tracker.now.helpers variable digit)
        (first_of digit (length tracker.now.variables)) (length tracker.now.variables)
        coding.old coding.new) }
    ensures ids { IsErrOf result Ids → LacksNumber coding.new }
{
    let variables = tracker.variables();
    let helpers = tracker.helpers();
    let place = variables.len() as u32;
    match digit {
        None => {
            tie_one(coding, name, variable, place, helpers)?;
            Ok(())
        }
        Some(digit) => {
            tie_earlier(coding, name, variables, digit)?;
            tie_one(coding, name, variable, place, helpers)?;
            add_tie(coding, name, (variable, digit, true), place)?;
            Ok(())
        }
    }
}

/// Ties the earlier variables to a new digit, which is 0 at each of their places.
fn tie_earlier<N: Copy + Exact + Hash + Debug, S: Copy + Exact + Hash + Debug>(
    coding: &mut SolverState<N, S>,
    name: N,
    variables: &[VariableId],
    digit: VariableId,
) -> R<()>
    requires coding { IsCoding coding.old }
    requires few { length variables.now < 4294967296 }
    requires ties { AreTies name coding.old.atoms.keys 0 (length variables.now)
        (map (λ x. (x, digit, false)) variables.now) }
    ensures encoded { OnOk result (AddsTies name (map (λ x. (x, digit, false)) variables.now)
        0 (length variables.now) coding.old coding.new) }
    ensures ids { IsErrOf result Ids → LacksNumber coding.new }
{
    let mut place = 0;
    for variable in variables {
        add_tie(coding, name, (*variable, digit, false), place)?;
        place += 1;
    }
    Ok(())
}

/// Ties a variable to the digits of its place.
fn tie_one<N: Copy + Exact + Hash + Debug, S: Copy + Exact + Hash + Debug>(
    coding: &mut SolverState<N, S>,
    name: N,
    variable: VariableId,
    place: u32,
    digits: &[VariableId],
) -> R<()>
    requires coding { IsCoding coding.old }
    requires solvable { (s : S) × Represents coding.old.atoms.keys variable (Solvable s) }
    requires digits { AreDigits name coding.old.atoms.keys digits.now }
    requires few { length digits.now ≤ 32 }
    ensures encoded { OnOk result (AddsTies name (ties place variable digits.now) place place
        coding.old coding.new) }
    ensures ids { IsErrOf result Ids → LacksNumber coding.new }
{
    let Some(solvable) = coding.solvable(variable) else {
        unreachable!()
    };
    coding.add_digits(name, solvable, variable, place, digits)
}

/// Adds the clause that ties a solvable at a place to one digit of its package.
fn add_tie<N: Copy + Exact + Hash + Debug, S: Copy + Exact + Hash + Debug>(
    coding: &mut SolverState<N, S>,
    name: N,
    tie: Tie,
    place: u32,
) -> R<()>
    requires coding { IsCoding coding.old }
    requires tie { IsTie name coding.old.atoms.keys place tie }
    ensures encoded { OnOk result (AddsTie name place tie coding.old coding.new) }
    ensures ids { IsErrOf result Ids → LacksNumber coding.new }
{
    let (variable, digit, value) = tie;
    let literals = [Literal::new(variable, true), Literal::new(digit, !value)];
    let (Some(solvable), Some(bit)) = (coding.solvable(variable), coding.bit(digit)) else {
        unreachable!()
    };
    let kind = ClauseKind::ForbidMultipleInstances {
        name,
        solvable,
        place,
        bit,
    };
    coding.add_clause(kind, &literals)?;
    Ok(())
}
