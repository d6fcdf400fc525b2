//! The wishes of a request. Those that a lock or an exclusion forbids are left out without a
//! search.

ghost use Rattle.std.specs.Prelude.{◌≡◌, map, IfOk, IsOkUnless, OnOk};
ghost use Rattle.resolvo_catalogue_core.specs.Questions.{AreAll, IsWish, LineIs};
ghost use Rattle.std.specs.Option.{option_map};
ghost use Rattle.resolvo_pool_core.specs.declared.want.Want.TheVariants.{Memory};
ghost use Rattle.resolvo_report.specs.View.{step_of};
ghost use Rattle.resolve_refusal.specs.InstallSteps.{IsForbidStepOf};
ghost use Rattle.resolve_answer.specs.Wishes.{AreWishesOf, asked_by, free_of};

use resolve_refusal::forbid_step;
use resolvo_catalogue_core::{Catalogue, Request, VersionNo};
use resolvo_pool_core::id::SolvableId;
use resolvo_pool_core::want::R;
use resolvo_report::Step;
use std::alloc::Global;

/// A wish of a request, and the step that forbids it without a search, if there is one.
#[derive(Drop)]
pub struct Wish {
    pub line: u32,
    pub version: VersionNo,
    pub forbidden_by: Option<Step>,
}

/// The wishes of a request, in the order of their lines. `Memory` where they find no room.
pub fn wishes_of(alloc: Global, catalogue: &Catalogue, request: &Request) -> R<Vec<Wish>>
    ensures wishes { IfOk result (λ v. AreWishesOf catalogue.now request.now.wishes v.items) }
    ensures lines { OnOk result
        (AreAll (map (λ f. f.0) request.now.wishes) (λ n. LineIs request.now.lines n IsWish)) }
    ensures refusal { IsOkUnless result Memory }
{
    let mut wishes = Vec::new(alloc);
    for wish in request.wishes() {
        wishes.push(wish_of(alloc, catalogue, *wish)?)?;
    }
    Ok(wishes)
}

/// A wish, by its line and its version, with the step that forbids it.
fn wish_of(alloc: Global, catalogue: &Catalogue, wish: (u32, VersionNo)) -> R<Wish>
    ensures asked { IfOk result (λ w. asked_by w ≡ wish) }
    ensures forbidden { IfOk result
        (λ w. IsForbidStepOf catalogue.now w.version.0 (option_map step_of w.forbidden_by)) }
    ensures refusal { IsOkUnless result Memory }
{
    let (line, version) = wish;
    let forbidden_by = forbid_step(alloc, catalogue, version)?;
    Ok(Wish {
        line,
        version,
        forbidden_by,
    })
}

/// The wishes of the search: those that no step forbids. `Memory` where there is no room.
pub fn free_wishes(alloc: Global, wishes: &[Wish]) -> R<Vec<SolvableId>>
    ensures wishes { IfOk result (λ v. v.items ≡ free_of wishes.now) }
    ensures refusal { IsOkUnless result Memory }
{
    let mut free = Vec::new(alloc);
    for wish in wishes {
        if wish.forbidden_by.is_none() {
            free.push(SolvableId::from_raw(wish.version.0))?;
        }
    }
    Ok(free)
}
