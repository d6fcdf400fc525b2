//! Versions of packages, SPECs, and which versions a SPEC matches.
//!
//! The model of a version is its name and number; of a SPEC its name and span; of a slice of
//! versions a set.

ghost use Rattle.std.specs.Prelude.{◌≡◌, IfOk};
ghost use Rattle.std.specs.List.{list_any};
ghost use Rattle.resolvo_text.specs.View.{version_of, spec_of, specs_of, set_of};
ghost use Rattle.resolvo_text.specs.Matches.{is_in_span, matches, is_met, is_met_by_one, same_version, is_member};

use std::alloc::AllocError;

/// The numbers that are asked for: any, this one, or those from the first to below the second.
#[derive(Clone, Copy, Debug, PartialEq, Eq, Hash)]
pub enum Span {
    Any,
    One(u32),
    Range(u32, u32),
}

/// A version of a package.
#[derive(Debug, Drop)]
pub struct Version {
    pub name: String,
    pub number: u32,
}

impl Version {
    pub fn copy(&self) -> Result<Version, AllocError>
        ensures { IfOk result (λ v. version_of v ≡ version_of self.now) }
    {
        Ok(Version {
            name: self.name.clone()?,
            number: self.number,
        })
    }
}

/// A package, and which of its versions.
#[derive(Debug, Drop)]
pub struct Spec {
    pub name: String,
    pub span: Span,
}

impl Spec {
    pub fn copy(&self) -> Result<Spec, AllocError>
        ensures { IfOk result (λ s. spec_of s ≡ spec_of self.now) }
    {
        Ok(Spec {
            name: self.name.clone()?,
            span: self.span,
        })
    }
}

pub fn is_in_span(span: Span, number: u32) -> bool
    ensures { result ≡ is_in_span span number }
{
    match span {
        Span::Any => true,
        Span::One(one) => number == one,
        Span::Range(low, high) => low <= number && number < high,
    }
}

pub fn matches(spec: &Spec, version: &Version) -> bool
    ensures { result ≡ matches (spec_of spec.now) (version_of version.now) }
{
    version.name == spec.name && is_in_span(spec.span, version.number)
}

// split for the prover: list and set
fn any_matches(spec: &Spec, set: &[Version]) -> bool
    ensures { result ≡ list_any (λ v. matches (spec_of spec.now) (version_of v)) set.now }
{
    set.iter().any(|version| matches(spec, version))
}

/// Whether some member matches.
pub fn is_met(spec: &Spec, set: &[Version]) -> bool
    ensures { result ≡ is_met (spec_of spec.now) (set_of set.now) }
{
    any_matches(spec, set)
}

// split for the prover: list and set
fn any_is_met(alternatives: &[Spec], set: &[Version]) -> bool
    ensures { result ≡ list_any (λ s. is_met (spec_of s) (set_of set.now)) alternatives.now }
{
    alternatives.iter().any(|spec| is_met(spec, set))
}

/// Whether some member matches one of the alternatives.
pub fn is_met_by_one(alternatives: &[Spec], set: &[Version]) -> bool
    ensures { result ≡ is_met_by_one (specs_of alternatives.now) (set_of set.now) }
{
    any_is_met(alternatives, set)
}

fn same_version(one: &Version, other: &Version) -> bool
    ensures { result ≡ same_version (version_of one.now) (version_of other.now) }
{
    one.name == other.name && one.number == other.number
}

// split for the prover: list and set
fn any_is(version: &Version, set: &[Version]) -> bool
    ensures { result ≡ list_any (λ w. same_version (version_of version.now) (version_of w)) set.now }
{
    set.iter().any(|member| same_version(version, member))
}

pub fn is_member(version: &Version, set: &[Version]) -> bool
    ensures { result ≡ is_member (version_of version.now) (set_of set.now) }
{
    any_is(version, set)
}
