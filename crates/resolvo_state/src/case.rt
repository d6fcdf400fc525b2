//! A case of the condition of a requirement. Its model is the list of its version sets.
ghost use Rattle.std.specs.Prelude.{◌≡◌, IfOk};

use resolvo_pool_core::id::VersionSetId;
use std::alloc::AllocError;
use std::marker::Model;

/// The version sets of a case, of which each has a chosen match where it holds.
#[derive(Drop)]
pub struct Case {
    version_sets: Vec<VersionSetId>,
}

impl Model for Case {
    ghost use Rattle.std.specs.Prelude.{List};
    ghost use Rattle.resolvo_pool_core.specs.declared.id.VersionSetId.{VersionSetId};

    ghost Value = { List VersionSetId };

    ghost view = { λ c. c.version_sets.items };
}

impl Case {
    /// The case of these version sets.
    pub fn of(version_sets: Vec<VersionSetId>) -> Case
        ensures { result ≡ version_sets.items }
    {
        Case { version_sets }
    }

    /// A copy of its version sets.
    pub fn version_sets(&self) -> Result<Vec<VersionSetId>, AllocError>
        ensures { IfOk result (λ v. v.items ≡ self.now) }
    {
        self.version_sets.clone()
    }
}
