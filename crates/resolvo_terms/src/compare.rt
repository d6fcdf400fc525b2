//! Whether a number stands for a text, without making a text of it. Called by those who look for one
//! text among many lines.

ghost use Rattle.std.specs.Prelude.{◌≡◌, map};
ghost use Rattle.std.specs.Bool.{Decides};
ghost use Rattle.resolvo_text.specs.View.{spec_of, specs_of};
ghost use Rattle.resolvo_terms.specs.Known.{spec_at, alternatives_at};

use crate::terms::{Terms, is_span};
use resolvo_pool_core::id::VersionSetId;
use resolvo_pool_core::requirement::Requirement;
use resolvo_text::Spec;

impl Terms {
    /// Whether a version set is that of the SPEC.
    pub fn is_spec(&self, version_set: VersionSetId, spec: &Spec) -> bool
        ensures { Decides result (spec_at self.now version_set ≡ spec_of spec.now) }
    {
        self.name_bytes(self.set_package(version_set)) == spec.name.as_bytes()
            && is_span(self.span(version_set), spec.span)
    }

    /// Whether version sets are those of the SPECs, in order.
    fn are_specs(&self, version_sets: &[VersionSetId], specs: &[Spec]) -> bool
        ensures { Decides result (map (spec_at self.now) version_sets.now ≡ specs_of specs.now) }
    {
        if version_sets.len() != specs.len() {
            return false;
        }
        for index in 0..version_sets.len() {
            if !self.is_spec(version_sets[index], &specs[index]) {
                return false;
            }
        }
        true
    }

    /// Whether a requirement is that of the alternatives, in order.
    pub fn are_alternatives(&self, requirement: Requirement, specs: &[Spec]) -> bool
        ensures { Decides result (alternatives_at self.now requirement ≡ specs_of specs.now) }
    {
        match requirement {
            Requirement::Single(version_set) => match specs {
                [only] => self.is_spec(version_set, only),
                _ => false,
            },
            Requirement::Union(union) => self.are_specs(self.members(union), specs),
        }
    }
}
