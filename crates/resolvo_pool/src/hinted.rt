//! The solvables whose dependencies a provider has at hand, as a set. The cache inserts a package's
//! hinted solvables before it caches the package's candidates, and afterwards asks the set.
//! Of a list that hints solvables of other packages too, only those of the asked package count.
ghost use Rattle.std.specs.Prelude.{OnOk, IsOkUnless};
ghost use Rattle.resolvo_pool_core.specs.declared.want.Want.TheVariants.{Memory};
ghost use Rattle.resolvo_pool_core.specs.Provider.{listing, hints};
ghost use Rattle.resolvo_pool.specs.Hinted.{hints_own, among_own, Grows, HasEach};

use resolvo_pool_core::id_map::IdSet;
use resolvo_pool_core::provider::{Candidates, DependencyProvider, HintDependenciesAvailable};
use resolvo_pool_core::solver_id::SolverId;
use resolvo_pool_core::want::R;

/// Inserts the solvables of a package that its candidates hint. After a refusal some of them may be
/// in the set.
pub fn put_hinted<D: DependencyProvider>(
    set: &mut <D::SolvableId as SolverId>::Set,
    provider: &D,
    name: D::NameId,
    list: &Candidates<D::SolvableId>,
) -> R<()>
    ensures grows { Grows
        (hints_own D.NameId.eq D.SolvableId.eq (D.name_of_solvable provider.now) name
        (listing list.now))
        (D.SolvableId.Set.has set.old) (D.SolvableId.Set.has set.new) }
    ensures each { OnOk result
        (HasEach
        (hints_own D.NameId.eq D.SolvableId.eq (D.name_of_solvable provider.now) name
        (listing list.now))
        (D.SolvableId.Set.has set.new)) }
    ensures refusal { IsOkUnless result Memory }
{
    match &list.hint_dependencies_available {
        HintDependenciesAvailable::None => Ok(()),
        HintDependenciesAvailable::All => put_own(set, provider, name, list.candidates.as_slice()),
        HintDependenciesAvailable::Some(hinted) => put_own(set, provider, name, hinted.as_slice()),
    }
}

/// Inserts those of the solvables that are of a package.
fn put_own<D: DependencyProvider>(
    set: &mut <D::SolvableId as SolverId>::Set,
    provider: &D,
    name: D::NameId,
    solvables: &[D::SolvableId],
) -> R<()>
    ensures grows { Grows
        (among_own D.NameId.eq D.SolvableId.eq (D.name_of_solvable provider.now) name
        solvables.now)
        (D.SolvableId.Set.has set.old) (D.SolvableId.Set.has set.new) }
    ensures each { OnOk result
        (HasEach
        (among_own D.NameId.eq D.SolvableId.eq (D.name_of_solvable provider.now) name
        solvables.now)
        (D.SolvableId.Set.has set.new)) }
    ensures refusal { IsOkUnless result Memory }
{
    for solvable in solvables {
        if provider.solvable_name(*solvable) == name {
            set.insert(*solvable)?;
        }
    }
    Ok(())
}
