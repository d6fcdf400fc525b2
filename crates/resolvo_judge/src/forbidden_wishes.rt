//! The wishes that an `install` report leaves out, by the steps that forbid them.
//! Its model is a list of wishes: `HoldsWishes` of specs/ForbiddenWishes.antt.

ghost use Rattle.std.specs.Prelude.{◌≡◌, ◌++◌, ◌∷◌, [], OnOk, List, map};
ghost use Rattle.std.specs.BTreeMap.{get};
ghost use Rattle.std.specs.Ordering.{nat_cmp};
ghost use Rattle.resolvo_text.specs.View.{version_of};
ghost use Rattle.resolvo_judge.specs.ForbiddenWishes.{ForbiddenWish, forbidden_of, wishes_kept, named_by, HoldsWishes, AddsWish};

use resolvo_catalogue_core::Version;
use std::alloc::{AllocError, Global};
use std::collections::BTreeMap;

/// A left-out wish, the step that forbids it, and the number of entries above its line.
#[derive(Drop)]
pub struct Forbidden {
    pub wish: Version,
    pub step: u32,
    pub above: usize,
}

/// The wishes by their steps, and the steps in the order of the wishes.
#[derive(Drop)]
pub struct ForbiddenWishes {
    by_step: BTreeMap<u32, Vec<Forbidden>>,
    steps: Vec<u32>,
}

/// Adds a wish of its step.
fn add_wish(
    alloc: Global,
    by_step: &mut BTreeMap<u32, Vec<Forbidden>>,
    forbidden: Forbidden,
) -> Result<(), AllocError>
    ensures { OnOk result
        (AddsWish (get nat_cmp by_step.old) (forbidden_of forbidden) (get nat_cmp by_step.new)) }
{
    let step = forbidden.step;
    if let Some(kept) = by_step.get_mut(&step) {
        kept.push(forbidden)?;
        return Ok(());
    }
    let mut kept = Vec::new(alloc);
    kept.push(forbidden)?;
    by_step.insert(step, kept)?;
    Ok(())
}

impl ForbiddenWishes {
    pub fn new(alloc: Global) -> ForbiddenWishes
        ensures { HoldsWishes result [] }
    {
        ForbiddenWishes {
            by_step: BTreeMap::new(alloc),
            steps: Vec::new(alloc),
        }
    }

    pub fn add(
        &mut self,
        alloc: Global,
        wish: &Version,
        step: u32,
        above: usize,
    ) -> Result<(), AllocError>
        ensures { OnOk result
            ((wishes : List ForbiddenWish)
            → HoldsWishes self.old wishes
            → HoldsWishes self.new
            (wishes ++ record { wish = version_of wish.now; step = step; above = above }
            ∷ [])) }
    {
        self.steps.push(step)?;
        let wish = wish.copy()?;
        add_wish(alloc, &mut self.by_step, Forbidden { wish, step, above })
    }

    /// The wishes that this step must forbid.
    pub fn of(&self, step: u32) -> &[Forbidden]
        ensures { map forbidden_of result.now ≡ wishes_kept (get nat_cmp self.now.by_step step) }
    {
        match self.by_step.get(&step) {
            Some(kept) => kept,
            None => &[],
        }
    }

    /// The steps that must forbid the wishes.
    pub fn steps(&self) -> &[u32]
        ensures { result.now ≡ self.now.steps.items }
    {
        &self.steps
    }
}
