//! Proof trimming: steps that don't lead to the wanted ones are left out of a proof. The others are
//! found from the last one back, by their antecedents, and renumbered. A proof is trimmed before it
//! is written. A refusal needs the last step alone, an install report each step by which a wish is
//! left out.
ghost use Rattle.std.specs.Prelude.{◌≡◌, ◌≤◌, length, map, Contains, IfOk, OnOk, IsOkUnless};
ghost use Rattle.resolvo_pool_core.specs.declared.want.Want.TheVariants.{Memory};
ghost use Rattle.resolvo_proof.specs.Proof.{EndsEmpty};
ghost use Rattle.resolvo_proof.specs.Drawn.{HaveOneSigns};
ghost use Rattle.resolvo_proof.specs.Places.{HaveOnePlace};
ghost use Rattle.resolvo_proof.specs.Trimmed.{number_of, Names, AreLeading, Flags, IsNumbered, Keeps, IsTrimmed, IsTrimmedWith, AreNamed, StaysProof};

use crate::step::ProofStep;
use resolvo_pool_core::id::Exact;
use resolvo_pool_core::want::R;
use std::alloc::Global;
use std::fmt::Debug;
use std::hash::Hash;

/// Steps of which some were left out.
#[derive(Drop)]
pub struct Trimmed<N, S> {
    pub steps: Vec<ProofStep<N, S>>,
    /// For each step's old place, how many kept steps precede it.
    pub numbers: Vec<usize>,
}

/// The steps that lead to the last one, in their order, with their antecedents renumbered.
pub fn trim<N: Copy + Exact + Hash + Debug, S: Copy + Exact + Hash + Debug>(
    alloc: Global,
    steps: Vec<ProofStep<N, S>>,
) -> R<Vec<ProofStep<N, S>>>
    // After an answer.
    ensures kept { IfOk result (λ v. IsTrimmed steps.items v.items) }
    ensures named { IfOk result (λ v. AreNamed v.items) }
    ensures proof { IfOk result (λ v. StaysProof steps.items v.items) }
    ensures empty { IfOk result (λ v. EndsEmpty steps.items → EndsEmpty v.items) }
    ensures places { IfOk result (λ v. HaveOnePlace steps.items → HaveOnePlace v.items) }
    ensures signs { IfOk result (λ v. HaveOneSigns steps.items → HaveOneSigns v.items) }
    // After a refusal.
    ensures refusal { IsOkUnless result Memory }
{
    let last = steps.len().saturating_sub(1);
    let Trimmed { steps, .. } = trim_to(alloc, steps, &[last])?;
    Ok(steps)
}

/// The steps that lead to those at these places, in their order, with their antecedents renumbered.
/// A place without a step is skipped.
pub fn trim_to<N: Copy + Exact + Hash + Debug, S: Copy + Exact + Hash + Debug>(
    alloc: Global,
    steps: Vec<ProofStep<N, S>>,
    wanted: &[usize],
) -> R<Trimmed<N, S>>
    ensures kept { IfOk result
        (λ t. IsTrimmedWith (Contains wanted.now) steps.items t.steps.items t.numbers.items) }
    ensures proof { IfOk result (λ t. StaysProof steps.items t.steps.items) }
    ensures places { IfOk result (λ t. HaveOnePlace steps.items → HaveOnePlace t.steps.items) }
    ensures signs { IfOk result (λ t. HaveOneSigns steps.items → HaveOneSigns t.steps.items) }
    ensures refusal { IsOkUnless result Memory }
{
    let leading = leading(alloc, steps.as_slice(), wanted)?;
    let mut numbers = Vec::new(alloc);
    let mut kept = Vec::new(alloc);
    for step in steps {
        let number = kept.len();
        keep(&mut kept, numbers.as_slice(), leading[numbers.len()], step)?;
        numbers.push(number)?;
    }
    Ok(Trimmed {
        steps: kept,
        numbers,
    })
}

/// For each step, whether it leads to one of those at these places.
fn leading<N: Copy + Exact + Hash + Debug, S: Copy + Exact + Hash + Debug>(
    alloc: Global,
    steps: &[ProofStep<N, S>],
    wanted: &[usize],
) -> R<Vec<bool>>
    ensures leads { IfOk result (λ v. AreLeading (Contains wanted.now) steps.now v.items) }
    ensures refusal { IsOkUnless result Memory }
{
    let mut flags = Vec::new(alloc);
    flags.resize(steps.len(), false)?;
    flag(wanted, steps.len(), &mut flags);
    let mut place = steps.len();
    while place > 0 {
        place -= 1;
        if flags[place] {
            flag_causes(&steps[place], place, &mut flags);
        }
    }
    Ok(flags)
}

/// Flags the antecedents of a step.
fn flag_causes<N, S>(step: &ProofStep<N, S>, place: usize, flags: &mut Vec<bool>)
    requires { place ≤ length flags.old.items }
    ensures { Flags (Names step.now) place flags.old.items flags.new.items }
{
    if let ProofStep::Derived { causes, .. } = step {
        flag(causes.as_slice(), place, flags);
    }
}

/// Flags the steps at those of these places that are before `end`.
fn flag(places: &[usize], end: usize, flags: &mut Vec<bool>)
    requires { end ≤ length flags.old.items }
    ensures { Flags (Contains places.now) end flags.old.items flags.new.items }
{
    for place in places {
        if *place < end {
            flags[*place] = true;
        }
    }
}

/// Appends a step to the kept ones, where it leads to a wanted one.
fn keep<N: Copy + Exact + Hash + Debug, S: Copy + Exact + Hash + Debug>(
    kept: &mut Vec<ProofStep<N, S>>,
    numbers: &[usize],
    leads: bool,
    step: ProofStep<N, S>,
) -> R<()>
    ensures kept { OnOk result (Keeps leads numbers.now step kept.old.items kept.new.items) }
    ensures refusal { IsOkUnless result Memory }
{
    if !leads {
        return Ok(());
    }
    kept.push(renumbered(step, numbers))?;
    Ok(())
}

/// The step with its antecedents renumbered.
fn renumbered<N, S>(step: ProofStep<N, S>, numbers: &[usize]) -> ProofStep<N, S>
    ensures { IsNumbered numbers.now step result }
{
    match step {
        ProofStep::Rule(rule) => ProofStep::Rule(rule),
        ProofStep::Derived {
            literals,
            mut causes,
        } => {
            renumber(&mut causes, numbers);
            ProofStep::Derived { literals, causes }
        }
    }
}

/// Renumbers antecedents; a place with no number stays.
fn renumber(causes: &mut Vec<usize>, numbers: &[usize])
    ensures { causes.new.items ≡ map (number_of numbers.now) causes.old.items }
{
    for cause in causes.iter_mut() {
        *cause = number_of(numbers, *cause);
    }
}

/// The number of the step at this place, or the place where it has none.
fn number_of(numbers: &[usize], place: usize) -> usize
    ensures { result ≡ number_of numbers.now place }
{
    match numbers.get(place) {
        Some(number) => *number,
        None => place,
    }
}
