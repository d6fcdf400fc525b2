//! The left-out wishes of a report, as a set of versions by their packages.
//! Its model is a list of versions: `HoldsAll` of specs/Versions.antt.

ghost use Rattle.std.specs.Prelude.{◌≡◌, ◌++◌, ◌∷◌, [], OnOk};
ghost use Rattle.std.specs.BTreeMap.{get_by_text};
ghost use Rattle.std.specs.List.{list_any};
ghost use Rattle.resolvo_text.specs.Matches.{Set, is_member};
ghost use Rattle.resolvo_text.specs.View.{version_of};
ghost use Rattle.resolvo_judge.specs.Versions.{HoldsAll, numbers_kept, AddsNumber};

use resolvo_catalogue_core::Version;
use std::alloc::{AllocError, Global};
use std::collections::BTreeMap;

/// Versions, by their packages.
#[derive(Drop)]
pub struct Versions {
    numbers: BTreeMap<String, Vec<u32>>,
}

/// Adds a number of a package.
fn add_number(
    alloc: Global,
    numbers: &mut BTreeMap<String, Vec<u32>>,
    version: &Version,
) -> Result<(), AllocError>
    ensures { OnOk result
        (AddsNumber (λ name. get_by_text numbers.old name) (version_of version.now)
        (λ name. get_by_text numbers.new name)) }
{
    if let Some(kept) = numbers.get_mut(version.name.as_str()) {
        kept.push(version.number)?;
        return Ok(());
    }
    let mut kept = Vec::new(alloc);
    kept.push(version.number)?;
    numbers.insert(version.name.clone()?, kept)?;
    Ok(())
}

impl Versions {
    pub fn new(alloc: Global) -> Versions
        ensures { HoldsAll result [] }
    {
        Versions {
            numbers: BTreeMap::new(alloc),
        }
    }

    /// Adds a version.
    pub fn add(&mut self, alloc: Global, version: &Version) -> Result<(), AllocError>
        ensures { OnOk result
            ((set : Set)
            → HoldsAll self.old set
            → HoldsAll self.new (set ++ version_of version.now ∷ [])) }
    {
        add_number(alloc, &mut self.numbers, version)
    }

    /// The numbers of a package's versions.
    fn numbers_of(&self, name: &str) -> &[u32]
        ensures { result.now ≡ numbers_kept (get_by_text self.now.numbers name.now) }
    {
        match self.numbers.get(name) {
            Some(kept) => kept,
            None => &[],
        }
    }

    /// Whether a version was added.
    pub fn has(&self, version: &Version) -> bool
        ensures { (set : Set) → HoldsAll self.now set
            → result ≡ is_member (version_of version.now) set }
    {
        self.numbers_of(&version.name).contains(&version.number)
    }
}
