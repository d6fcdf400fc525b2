//! The check of a proof, step by step.
//! Its invariant is `CheckerInvariant` of specs/CheckStep.antt.

ghost use Rattle.std.specs.Prelude.{◌≡◌, ◌+◌, ◌^◌, ◌<◌, ◌≤◌, ◌&&◌, [], ◌∷◌, ◌++◌, ℕ, List, Option, IfOk, OnOk, IsTrue, None, length, map, is_some, slice_get, slice_index_or, true};
ghost use Rattle.std.specs.Global.{Vec};
ghost use Rattle.std.specs.Bool.{nat_eq};
ghost use Rattle.std.specs.List.{list_all};
ghost use Rattle.resolvo_text.specs.Line as spelled;
ghost use Rattle.resolvo_text.specs.View.{version_of};
ghost use Rattle.resolvo_catalogue_core.specs.Listed.{listed, AreDistinct};
ghost use Rattle.resolvo_pool_core.specs.OnePass.{one_pass};
ghost use Rattle.resolvo_report.specs.Value.{Step as StepValue};
ghost use Rattle.resolvo_report.specs.View.{step_of, atom_of, literal_of, literals_of as report_literals};
ghost use Rattle.resolvo_checker.specs.Literals.{literals_of, clause_at};
ghost use Rattle.resolvo_checker.specs.Rup.{is_earlier};
ghost use Rattle.resolvo_checker.specs.StepClauses.{is_atom, fits_mark, is_listed, literal_of as plain_literal, clause_of};
ghost use Rattle.resolvo_checker.specs.Proof.{rests_on_named, allows_place, follows};
ghost use Rattle.resolvo_checker.specs.Keys.{Extends, Numbered};
ghost use Rattle.resolvo_checker.specs.Numbers.{AreNumbers};
ghost use Rattle.resolvo_checker.specs.Kept.{Ready, deferred_at, is_ready};
ghost use Rattle.resolvo_checker.specs.CheckStep.{flag_at, names_catalogue, names_request, allows, causes_in, causes_of, clause_or_none, AtomIds as NumbersOf, CheckerInvariant, TellsValid, AddsStep, ReadsCauses, Given, NamesReady};
ghost use Rattle.resolvo_checker.specs.Built.{rule_clause_of};

use crate::assignment::Assignment;
use crate::atom_ids::AtomIds;
use crate::clause_atoms::{
    number_all, push_any, push_bit, push_match, push_outside, push_shared, push_version,
};
use crate::clauses::Clauses;
use crate::kept_clause::long_step;
use crate::literal::Literal;
use crate::rule_steps::RuleSteps;
use crate::rup::is_rup;
use crate::steps::{clause_of, has_clause, number_of};
use resolvo_catalogue_core::{Catalogue, Request, Version, VersionNo};
use resolvo_report as report;
use resolvo_report::{Atom, Place, Step};
use std::alloc::{AllocError, Global};

/// The lines that steps may name: all, or the marked ones of the two texts.
#[derive(Debug, Drop)]
pub enum Premises {
    All,
    Named {
        catalogue: Vec<bool>,
        request: Vec<bool>,
    },
}

fn is_marked(marks: &[bool], line: u32) -> bool
    ensures { result ≡ flag_at marks.now line }
{
    match marks.get(line as usize) {
        Some(mark) => *mark,
        None => false,
    }
}

fn in_catalogue(scope: &Premises, line: u32) -> bool
    ensures { result ≡ names_catalogue scope.now line }
{
    match scope {
        Premises::All => true,
        Premises::Named { catalogue, .. } => is_marked(catalogue, line),
    }
}

fn in_request(scope: &Premises, line: u32) -> bool
    ensures { result ≡ names_request scope.now line }
{
    match scope {
        Premises::All => true,
        Premises::Named { request, .. } => is_marked(request, line),
    }
}

/// Whether the step may name its line.
fn is_named(scope: &Premises, step: &Step) -> bool
    ensures { result
        ≡ rests_on_named (names_catalogue scope.now) (names_request scope.now) (step_of step.now) }
{
    match step {
        Step::Need {
            place: Place::Request,
            line,
            ..
        }
        | Step::LimitBars {
            place: Place::Request,
            line,
            ..
        }
        | Step::Limit {
            place: Place::Request,
            line,
        } => in_request(scope, *line),
        Step::Need { line, .. }
        | Step::LimitBars { line, .. }
        | Step::Limit { line, .. }
        | Step::Gate { line, .. }
        | Step::Lock { line, .. }
        | Step::Exclude { line }
        | Step::Unknown { line } => in_catalogue(scope, *line),
        Step::Shared { .. }
        | Step::Outside { .. }
        | Step::Matches { .. }
        | Step::Digit { .. }
        | Step::Any { .. }
        | Step::Derive { .. } => true,
    }
}

/// Whether the atom may be named: a bit of a package that isn't marked `many`, or `matches` of one
/// that is.
fn fits_mark(catalogue: &Catalogue, atom: &Atom) -> bool
    ensures { result ≡ fits_mark catalogue.now (atom_of atom.now) }
{
    match atom {
        Atom::Matches { spec } => catalogue.is_many(&spec.name),
        Atom::Bit { name, .. } => !catalogue.is_many(name),
        Atom::Version(_) | Atom::Any { .. } | Atom::Shared { .. } | Atom::Outside { .. } => true,
    }
}

/// Numbers a literal of a derived clause. False where it names an unlisted version, or an atom that
/// doesn't fit its package's mark.
fn push_derived(
    alloc: Global,
    catalogue: &Catalogue,
    numbers: &mut AtomIds,
    out: &mut Vec<Literal>,
    literal: &report::Literal,
) -> Result<bool, AllocError>
    ensures fine { IfOk result (λ fine. fine ≡ is_atom catalogue.now (atom_of literal.now.atom)) }
    ensures extends { IfOk result
        (λ fine.
        IsTrue fine
        → Extends (listed catalogue.now) numbers.old out.old.items numbers.new out.new.items
        (plain_literal (literal_of literal.now) ∷ [])) }
{
    if !fits_mark(catalogue, &literal.atom) {
        return Ok(false);
    }
    let positive = literal.positive;
    match &literal.atom {
        Atom::Version(version) => {
            let Some(number) = number_of(catalogue, version) else {
                return Ok(false);
            };
            push_version(alloc, numbers, out, number, positive)?;
        }
        Atom::Any { name } => push_any(alloc, numbers, out, name, positive)?,
        Atom::Shared { alternatives } => push_shared(alloc, numbers, out, alternatives, positive)?,
        Atom::Outside { spec } => push_outside(alloc, numbers, out, spec, positive)?,
        Atom::Matches { spec } => push_match(alloc, numbers, out, spec, positive)?,
        Atom::Bit { bit, name } => push_bit(alloc, numbers, out, *bit, name, positive)?,
    }
    Ok(true)
}

/// Numbers the literals of a derived clause. False where one names an unlisted version.
fn number_derived(
    alloc: Global,
    catalogue: &Catalogue,
    numbers: &mut AtomIds,
    out: &mut Vec<Literal>,
    literals: &[report::Literal],
) -> Result<bool, AllocError>
    ensures fine { IfOk result
        (λ fine.
        fine ≡ list_all (λ l. is_atom catalogue.now l.atom) (report_literals literals.now)) }
    ensures extends { IfOk result
        (λ fine.
        IsTrue fine
        → Extends (listed catalogue.now) numbers.old [] numbers.new out.new.items
        (map plain_literal (report_literals literals.now))) }
{
    out.clear();
    for literal in literals {
        if !push_derived(alloc, catalogue, numbers, out, literal)? {
            return Ok(false);
        }
    }
    Ok(true)
}

/// Numbers the clause of a rule step. False where the step doesn't fit its line.
fn number_rule(
    alloc: Global,
    catalogue: &Catalogue,
    request: &Request,
    numbers: &mut AtomIds,
    out: &mut Vec<Literal>,
    step: &Step,
) -> Result<bool, AllocError>
    ensures { IfOk result
        (λ there.
        NumbersOf (rule_clause_of catalogue.now request.now.lines (step_of step.now)) there
        (listed catalogue.now) numbers.old numbers.new out.new.items) }
{
    match clause_of(alloc, catalogue, request, step)? {
        Some(built) => {
            number_all(alloc, numbers, out, &built)?;
            Ok(true)
        }
        None => Ok(false),
    }
}

/// Numbers the clause of a step, if it has one.
fn number_step(
    alloc: Global,
    catalogue: &Catalogue,
    request: &Request,
    numbers: &mut AtomIds,
    out: &mut Vec<Literal>,
    step: &Step,
) -> Result<bool, AllocError>
    ensures { IfOk result
        (λ there.
        NumbersOf (clause_of catalogue.now request.now.lines (step_of step.now)) there
        (listed catalogue.now) numbers.old numbers.new out.new.items) }
{
    if let Step::Derive { literals, .. } = step {
        return number_derived(alloc, catalogue, numbers, out, literals);
    }
    number_rule(alloc, catalogue, request, numbers, out, step)
}

/// Builds the clause of a step, from 0, if it is deferred.
fn build(
    alloc: Global,
    catalogue: &Catalogue,
    request: &Request,
    numbers: &mut AtomIds,
    out: &mut Vec<Literal>,
    clauses: &mut Clauses,
    place: usize,
) -> Result<(), AllocError>
    ensures represents { OnOk result
        ((places : List (Option ℕ)) (rules : List (Vec ℕ × ℕ)) (earlier : List StepValue)
        → CheckerInvariant catalogue.now request.now.lines numbers.old clauses.old.kept
        places rules earlier
        → CheckerInvariant catalogue.now request.now.lines numbers.new clauses.new.kept
        places rules earlier) }
    ensures ready { OnOk result (deferred_at clauses.new.kept place ≡ None) }
    ensures stays { OnOk result
        ((n : ℕ) → deferred_at clauses.old.kept n ≡ None → deferred_at clauses.new.kept n ≡ None) }
    ensures count { OnOk result (length clauses.new.kept ≡ length clauses.old.kept) }
    ensures readings { clauses.new.readings ≡ clauses.old.readings }
{
    let Some(step) = clauses.deferred(place) else {
        return Ok(());
    };
    // Each deferred step has a clause.
    let _has_clause = number_step(alloc, catalogue, request, numbers, out, step)?;
    clauses.build(place, out)?;
    Ok(())
}

/// Builds the clauses that the step names, where they are deferred.
fn build_causes(
    alloc: Global,
    catalogue: &Catalogue,
    request: &Request,
    numbers: &mut AtomIds,
    out: &mut Vec<Literal>,
    clauses: &mut Clauses,
    causes: &[u32],
) -> Result<(), AllocError>
    ensures represents { OnOk result
        ((places : List (Option ℕ)) (rules : List (Vec ℕ × ℕ)) (earlier : List StepValue)
        → CheckerInvariant catalogue.now request.now.lines numbers.old clauses.old.kept
        places rules earlier
        → CheckerInvariant catalogue.now request.now.lines numbers.new clauses.new.kept
        places rules earlier) }
    ensures ready { OnOk result (list_all (is_ready clauses.new.kept) causes.now ≡ true) }
    ensures count { OnOk result (length clauses.new.kept ≡ length clauses.old.kept) }
    ensures readings { clauses.new.readings ≡ clauses.old.readings }
{
    for cause in causes {
        let place = (*cause as usize).saturating_sub(1);
        build(alloc, catalogue, request, numbers, out, clauses, place)?;
    }
    Ok(())
}

/// The numbers of the steps whose clauses a step names.
fn causes_of(step: &Step) -> &[u32]
    ensures { result.now ≡ causes_of (step_of step.now) }
{
    match step {
        Step::Derive { causes, .. } => causes,
        _ => &[],
    }
}

/// Whether the version has this place, or none yet.
fn may_have(places: &[Option<u32>], version: VersionNo, place: u32) -> bool
    ensures { result ≡ allows (slice_get places.now version.0) place }
{
    match places.get(version.0 as usize) {
        Some(Some(given)) => *given == place,
        _ => true,
    }
}

/// Whether the causes are steps from 1 to the count.
pub fn are_earlier(causes: &[u32], count: usize) -> bool
    ensures { result ≡ list_all (is_earlier count) causes.now }
{
    causes.iter().all(|n| 0 < *n && *n as usize <= count)
}

/// The checker's state beside the clauses, and the literals of the present step.
#[derive(Drop)]
pub struct Checker {
    pub numbers: AtomIds,
    pub truth: Assignment,
    /// The places that digit steps gave to versions, by their numbers.
    pub places: Vec<Option<u32>>,
    /// The steps whose clauses may be longer than they are.
    pub rules: RuleSteps,
    pub literals: Vec<Literal>,
}

/// Whether the causes are earlier steps, and the derived clause is RUP by them.
fn is_derived(
    truth: &mut Assignment,
    clauses: &mut Clauses,
    derived: &[Literal],
    causes: &[u32],
) -> Result<bool, AllocError>
    requires later { truth.old.pass ≤ length clauses.old.kept }
    requires short { length clauses.old.kept + 1 < 2 ^ 32 }
    requires room { clauses.old.readings.read + length causes.now < 2 ^ 64 }
    // After an answer.
    ensures answer { IfOk result
        (λ fine.
        fine
        ≡ (list_all (is_earlier (length clauses.old.kept)) causes.now && one_pass nat_eq
        (literals_of derived.now) (map (clause_at clauses.old.kept) causes.now))) }
    // Whatever the answer.
    ensures pass { truth.new.pass ≤ length clauses.old.kept + 1 }
    ensures kept { clauses.new.kept ≡ clauses.old.kept }
    // After an answer.
    ensures read { IfOk result
        (λ fine.
        IsTrue fine
        → clauses.new.readings
        ≡ record clauses.old.readings
        { read = clauses.old.readings.read + length causes.now }) }
{
    if !are_earlier(causes, clauses.len()) {
        return Ok(false);
    }
    let pass = clauses.len() as u32 + 1;
    is_rup(truth, pass, derived, clauses, causes)
}

/// Whether the version has no other place. A version that isn't listed has none.
fn has_no_other(
    catalogue: &Catalogue,
    places: &[Option<u32>],
    version: &Version,
    place: u32,
) -> bool
    ensures { (earlier : List StepValue)
        → is_listed catalogue.now (version_of version.now) ≡ true
        → Given catalogue.now places.now earlier
        → result ≡ list_all (allows_place (version_of version.now) place) earlier }
{
    match number_of(catalogue, version) {
        Some(number) => may_have(places, number, place),
        None => false,
    }
}

/// Whether the step fits the earlier ones: a version has one place, and a derived clause is RUP.
fn follows(
    catalogue: &Catalogue,
    truth: &mut Assignment,
    clauses: &mut Clauses,
    places: &[Option<u32>],
    literals: &[Literal],
    step: &Step,
) -> Result<bool, AllocError>
    requires later { truth.old.pass ≤ length clauses.old.kept }
    requires short { length clauses.old.kept + 1 < 2 ^ 32 }
    requires room { clauses.old.readings.read + causes_in (step_of step.now) < 2 ^ 64 }
    // After an answer.
    ensures answer { IfOk result
        (λ fine.
        (request : List spelled.Line) (entries : List (Vec ℕ × ℕ)) (rules : List (Vec ℕ × ℕ))
        (earlier : List StepValue) (count : ℕ)
        → AreNumbers entries count
        → AreDistinct (listed catalogue.now)
        → is_some (clause_of catalogue.now request (step_of step.now)) ≡ true
        → CheckerInvariant catalogue.now request entries clauses.old.kept places.now rules earlier
        → Numbered (listed catalogue.now) entries
        (clause_or_none catalogue.now request (step_of step.now)) literals.now
        → NamesReady clauses.old.kept (step_of step.now)
        → fine ≡ follows catalogue.now request earlier (step_of step.now)) }
    // Whatever the answer.
    ensures pass { truth.new.pass ≤ length clauses.old.kept + 1 }
    ensures kept { clauses.new.kept ≡ clauses.old.kept }
    // After an answer.
    ensures read { IfOk result
        (λ fine.
        IsTrue fine
        → clauses.new.readings
        ≡ record clauses.old.readings
        { read = clauses.old.readings.read + causes_in (step_of step.now) }) }
{
    match step {
        Step::Digit { version, place, .. } => Ok(has_no_other(catalogue, places, version, *place)),
        Step::Derive { causes, .. } => is_derived(truth, clauses, literals, causes),
        Step::Need { .. }
        | Step::Gate { .. }
        | Step::Shared { .. }
        | Step::LimitBars { .. }
        | Step::Limit { .. }
        | Step::Outside { .. }
        | Step::Matches { .. }
        | Step::Lock { .. }
        | Step::Exclude { .. }
        | Step::Unknown { .. }
        | Step::Any { .. } => Ok(true),
    }
}

/// Records the place that a digit step gives.
fn record_place(catalogue: &Catalogue, places: &mut Vec<Option<u32>>, step: &Step)
    requires { length places.old.items ≡ length (listed catalogue.now) }
    ensures long { length places.new.items ≡ length (listed catalogue.now) }
    ensures given { (request : List spelled.Line) (earlier : List StepValue)
        → AreDistinct (listed catalogue.now)
        → is_some (clause_of catalogue.now request (step_of step.now)) ≡ true
        → follows catalogue.now request earlier (step_of step.now) ≡ true
        → Given catalogue.now places.old.items earlier
        → Given catalogue.now places.new.items (earlier ++ step_of step.now ∷ []) }
{
    if let Step::Digit { version, place, .. } = step {
        if let Some(number) = number_of(catalogue, version) {
            places[number.0 as usize] = Some(*place);
        }
    }
}

/// Checks a step whose causes are built, and adds its clause if it is valid.
fn add(
    alloc: Global,
    catalogue: &Catalogue,
    request: &Request,
    scope: &Premises,
    checker: &mut Checker,
    clauses: &mut Clauses,
    step: &Step,
) -> Result<bool, AllocError>
    requires later { checker.old.truth.pass ≤ length clauses.old.kept }
    requires long { length checker.old.places.items ≡ length (listed catalogue.now) }
    requires short { length clauses.old.kept + 1 < 2 ^ 32 }
    requires room { clauses.old.readings.read + causes_in (step_of step.now) < 2 ^ 64 }
    requires ready { NamesReady clauses.old.kept (step_of step.now) }
    // After an answer.
    ensures answer { IfOk result
        (TellsValid catalogue.now request.now.lines scope.now (step_of step.now)
        checker.old clauses.old.kept) }
    ensures represents { IfOk result
        (λ fine.
        IsTrue fine
        → AddsStep catalogue.now request.now.lines (step_of step.now)
        checker.old clauses.old.kept checker.new clauses.new.kept) }
    ensures later { IfOk result (λ fine. IsTrue fine
        → checker.new.truth.pass ≤ length clauses.new.kept) }
    ensures long { IfOk result
        (λ fine. IsTrue fine → length checker.new.places.items ≡ length (listed catalogue.now)) }
    ensures count { IfOk result (λ fine. IsTrue fine
        → length clauses.new.kept ≡ length clauses.old.kept + 1) }
    ensures read { IfOk result
        (λ fine.
        IsTrue fine
        → ReadsCauses (step_of step.now) clauses.old.readings clauses.new.readings) }
{
    let there = number_step(
        alloc,
        catalogue,
        request,
        &mut checker.numbers,
        &mut checker.literals,
        step,
    )?;
    if !there || !is_named(scope, step) {
        return Ok(false);
    }
    // The proof uses the contracts of these two calls: no version is listed twice, and no two
    // keys have one number.
    let _versions = catalogue.versions();
    let _count = checker.numbers.count();
    let fine = follows(
        catalogue,
        &mut checker.truth,
        clauses,
        &checker.places,
        &checker.literals,
        step,
    )?;
    if !fine {
        return Ok(false);
    }
    let place = clauses.len();
    clauses.push(&checker.literals)?;
    record_place(catalogue, &mut checker.places, step);
    checker.rules.record(alloc, step, place)?;
    Ok(true)
}

/// Checks a step that isn't there yet, and adds it if it is valid. Its clause isn't built if it may
/// be long, and those that it names are.
fn defer_or_add(
    alloc: Global,
    catalogue: &Catalogue,
    request: &Request,
    scope: &Premises,
    checker: &mut Checker,
    clauses: &mut Clauses,
    step: &Step,
) -> Result<bool, AllocError>
    requires later { checker.old.truth.pass ≤ length clauses.old.kept }
    requires long { length checker.old.places.items ≡ length (listed catalogue.now) }
    requires short { length clauses.old.kept + 1 < 2 ^ 32 }
    requires room { clauses.old.readings.read + causes_in (step_of step.now) < 2 ^ 64 }
    // After an answer.
    ensures answer { IfOk result
        (TellsValid catalogue.now request.now.lines scope.now (step_of step.now)
        checker.old clauses.old.kept) }
    ensures represents { IfOk result
        (λ fine.
        IsTrue fine
        → AddsStep catalogue.now request.now.lines (step_of step.now)
        checker.old clauses.old.kept checker.new clauses.new.kept) }
    ensures later { IfOk result (λ fine. IsTrue fine
        → checker.new.truth.pass ≤ length clauses.new.kept) }
    ensures long { IfOk result
        (λ fine. IsTrue fine → length checker.new.places.items ≡ length (listed catalogue.now)) }
    ensures count { IfOk result (λ fine. IsTrue fine
        → length clauses.new.kept ≡ length clauses.old.kept + 1) }
    ensures read { IfOk result
        (λ fine.
        IsTrue fine
        → ReadsCauses (step_of step.now) clauses.old.readings clauses.new.readings) }
{
    let copy = long_step(alloc, step)?;
    let Some(long) = copy else {
        build_causes(
            alloc,
            catalogue,
            request,
            &mut checker.numbers,
            &mut checker.literals,
            clauses,
            causes_of(step),
        )?;
        return add(alloc, catalogue, request, scope, checker, clauses, step);
    };
    let there = has_clause(alloc, catalogue, request, step)?;
    if !there || !is_named(scope, step) {
        return Ok(false);
    }
    let place = clauses.len();
    clauses.defer(long)?;
    checker.rules.record(alloc, step, place)?;
    Ok(true)
}

/// Adds the clause of the same earlier step, from 0, if the step may name its line.
fn repeat(
    scope: &Premises,
    clauses: &mut Clauses,
    step: &Step,
    earlier: usize,
) -> Result<bool, AllocError>
    requires within { earlier < length clauses.old.kept }
    ensures answer { IfOk result
        (λ fine.
        fine
        ≡ rests_on_named (names_catalogue scope.now) (names_request scope.now) (step_of step.now)) }
    ensures kept { IfOk result
        (λ fine.
        IsTrue fine
        → clauses.new.kept
        ≡ clauses.old.kept ++ slice_index_or clauses.old.kept earlier (Ready []) ∷ []) }
    ensures count { IfOk result (λ fine. IsTrue fine
        → length clauses.new.kept ≡ length clauses.old.kept + 1) }
    ensures readings { clauses.new.readings ≡ clauses.old.readings }
{
    if !is_named(scope, step) {
        return Ok(false);
    }
    clauses.repeat(earlier)?;
    Ok(true)
}

/// Checks the next step, and adds its clause if it is valid.
///
/// The steps are numbered from 1. A step that is there already, whose clause may be longer than the
/// step, has the clause of the earlier one. The clause of a `need` or `shared` step is built only as
/// a later step names it.
pub fn check_step(
    alloc: Global,
    catalogue: &Catalogue,
    request: &Request,
    scope: &Premises,
    checker: &mut Checker,
    clauses: &mut Clauses,
    step: &Step,
) -> Result<bool, AllocError>
    requires later { checker.old.truth.pass ≤ length clauses.old.kept }
    requires long { length checker.old.places.items ≡ length (listed catalogue.now) }
    requires short { length clauses.old.kept + 1 < 2 ^ 32 }
    requires room { clauses.old.readings.read + causes_in (step_of step.now) < 2 ^ 64 }
    // After an answer.
    ensures answer { IfOk result
        (TellsValid catalogue.now request.now.lines scope.now (step_of step.now)
        checker.old clauses.old.kept) }
    ensures represents { IfOk result
        (λ fine.
        IsTrue fine
        → AddsStep catalogue.now request.now.lines (step_of step.now)
        checker.old clauses.old.kept checker.new clauses.new.kept) }
    ensures later { IfOk result (λ fine. IsTrue fine
        → checker.new.truth.pass ≤ length clauses.new.kept) }
    ensures long { IfOk result
        (λ fine. IsTrue fine → length checker.new.places.items ≡ length (listed catalogue.now)) }
    ensures count { IfOk result (λ fine. IsTrue fine
        → length clauses.new.kept ≡ length clauses.old.kept + 1) }
    ensures read { IfOk result
        (λ fine.
        IsTrue fine
        → ReadsCauses (step_of step.now) clauses.old.readings clauses.new.readings) }
{
    let earlier = checker.rules.earlier(alloc, step, clauses.len())?;
    match earlier {
        Some(place) => repeat(scope, clauses, step, place),
        None => defer_or_add(alloc, catalogue, request, scope, checker, clauses, step),
    }
}
