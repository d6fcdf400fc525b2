//! The place of an alternative that an entry matches among those of its line, so that no entry walks
//! a long line. It is only a hint: no answer depends on it.

use resolvo_catalogue_core::{Catalogue, Request, Rule, Span, Spec, Version};
use resolvo_checker::line_rule::{need_of, rule_asked};
use resolvo_pool_core::id::VersionSetId;
use resolvo_pool_core::requirement::Requirement;
use resolvo_report::{AnswerLine, Place};
use resolvo_terms::Terms;
use std::alloc::{AllocError, Global};
use std::collections::BTreeMap;
use std::ops::Bound;

/// Up to so many alternatives, a walk is faster than a table.
const FEW: usize = 16;

/// The place of an alternative, and the last number that it matches.
#[derive(Clone, Copy)]
struct Alternative {
    place: usize,
    last: u32,
}

/// The alternatives of a line, by their packages and first numbers. The one of a number ends last
/// among those that begin no later.
type AlternativesByPackage = BTreeMap<String, BTreeMap<u32, Alternative>>;

/// The tables of the long lines that give an entry its reason.
#[derive(Drop)]
pub struct Alternatives {
    catalogue: BTreeMap<u32, AlternativesByPackage>,
    request: BTreeMap<u32, AlternativesByPackage>,
}

/// The first and the last number of a span, if it has one.
fn ends_of(span: Span) -> Option<(u32, u32)> {
    match span {
        Span::Any => Some((0, u32::MAX)),
        Span::One(number) => Some((number, number)),
        Span::Range(low, high) => {
            if low < high {
                Some((low, high - 1))
            } else {
                None
            }
        }
    }
}

/// Adds an alternative, unless one with the same first number ends no earlier.
fn add_first(
    numbers: &mut BTreeMap<u32, Alternative>,
    first: u32,
    alternative: Alternative,
) -> Result<(), AllocError> {
    if let Some(kept) = numbers.get(&first) {
        if alternative.last <= kept.last {
            return Ok(());
        }
    }
    numbers.insert(first, alternative)?;
    Ok(())
}

/// Adds the alternative of this place.
fn add_place(
    alloc: Global,
    packages: &mut AlternativesByPackage,
    name: &str,
    span: Span,
    place: usize,
) -> Result<(), AllocError> {
    let Some((first, last)) = ends_of(span) else {
        return Ok(());
    };
    let alternative = Alternative { place, last };
    if let Some(numbers) = packages.get_mut(name) {
        return add_first(numbers, first, alternative);
    }
    let mut numbers = BTreeMap::new(alloc);
    numbers.insert(first, alternative)?;
    packages.insert(String::from_str(alloc, name)?, numbers)?;
    Ok(())
}

/// Gives each first number the alternative that ends last among those that begin no later.
fn keep_last(numbers: &mut BTreeMap<u32, Alternative>) {
    let mut latest = Alternative { place: 0, last: 0 };
    for alternative in numbers.values_mut() {
        if alternative.last < latest.last {
            *alternative = latest;
        } else {
            latest = *alternative;
        }
    }
}

fn keep_last_of_all(packages: &mut AlternativesByPackage) {
    for numbers in packages.values_mut() {
        keep_last(numbers);
    }
}

/// The table of a line of the request.
fn packages_of(alloc: Global, alternatives: &[Spec]) -> Result<AlternativesByPackage, AllocError> {
    let mut packages = BTreeMap::new(alloc);
    for place in 0..alternatives.len() {
        let spec = &alternatives[place];
        add_place(alloc, &mut packages, spec.name.as_str(), spec.span, place)?;
    }
    keep_last_of_all(&mut packages);
    Ok(packages)
}

/// The table of a line of the catalogue, by the numbers of its alternatives.
fn packages_kept(
    alloc: Global,
    terms: &Terms,
    alternatives: &[VersionSetId],
) -> Result<AlternativesByPackage, AllocError> {
    let mut packages = BTreeMap::new(alloc);
    for place in 0..alternatives.len() {
        let spec = alternatives[place];
        let name = terms.name(terms.set_package(spec));
        add_place(alloc, &mut packages, name, terms.span(spec), place)?;
    }
    keep_last_of_all(&mut packages);
    Ok(packages)
}

/// The place of an alternative that matches the version, if one does.
fn place_at(packages: &AlternativesByPackage, version: &Version) -> Option<usize> {
    let numbers = packages.get(version.name.as_str())?;
    let up_to = (Bound::Unbounded, Bound::Included(version.number));
    let (_, alternative) = numbers.range(up_to).next_back()?;
    Some(alternative.place)
}

/// The place of an alternative that matches the version, by the line's table.
fn place_in(
    tables: &BTreeMap<u32, AlternativesByPackage>,
    line: u32,
    version: &Version,
) -> Option<usize> {
    place_at(tables.get(&line)?, version)
}

impl Alternatives {
    pub fn new(alloc: Global) -> Alternatives {
        Alternatives {
            catalogue: BTreeMap::new(alloc),
            request: BTreeMap::new(alloc),
        }
    }

    /// The place of the alternative that the version matches, where the line of the request has many.
    fn place_asked(
        &mut self,
        alloc: Global,
        request: &Request,
        line: u32,
        version: &Version,
    ) -> Result<Option<usize>, AllocError> {
        let Some(Rule::Needs { alternatives, .. }) = rule_asked(request, line) else {
            return Ok(None);
        };
        if alternatives.len() <= FEW {
            return Ok(None);
        }
        if !self.request.contains_key(&line) {
            let packages = packages_of(alloc, alternatives.as_slice())?;
            self.request.insert(line, packages)?;
        }
        Ok(place_in(&self.request, line, version))
    }

    /// The place of the alternative that the version matches, where the owner's line has many.
    fn place_kept(
        &mut self,
        alloc: Global,
        catalogue: &Catalogue,
        owner: &Version,
        line: u32,
        version: &Version,
    ) -> Result<Option<usize>, AllocError> {
        let kept = catalogue.kept();
        let Some(need) = need_of(&kept, &catalogue.versions(), owner, line) else {
            return Ok(None);
        };
        let Requirement::Union(union) = need.requirement else {
            return Ok(None);
        };
        let alternatives = kept.terms().members(union);
        if alternatives.len() <= FEW {
            return Ok(None);
        }
        if !self.catalogue.contains_key(&line) {
            let packages = packages_kept(alloc, kept.terms(), alternatives)?;
            self.catalogue.insert(line, packages)?;
        }
        Ok(place_in(&self.catalogue, line, version))
    }

    /// The place of the alternative that an entry matches, where its line has many.
    pub fn place_of(
        &mut self,
        alloc: Global,
        catalogue: &Catalogue,
        request: &Request,
        line: &AnswerLine,
    ) -> Result<Option<usize>, AllocError> {
        let AnswerLine::Entry {
            version,
            place,
            line,
        } = line
        else {
            return Ok(None);
        };
        match place {
            Place::Request => self.place_asked(alloc, request, *line, version),
            Place::Version(owner) => self.place_kept(alloc, catalogue, owner, *line, version),
        }
    }
}
