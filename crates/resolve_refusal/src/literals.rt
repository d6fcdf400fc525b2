//! Atoms by their texts, and the literals of a derived clause as they are in a report: in the order
//! of their texts, each once.

ghost use Rattle.std.specs.Prelude.{◌≡◌, IfOk, IsOkUnless, IsTrue, map};
ghost use Rattle.resolvo_pool_core.specs.declared.want.Want.TheVariants.{Memory};
ghost use Rattle.resolvo_text.specs.View.{version_of};
ghost use Rattle.resolvo_report.specs.View.{atom_of, literals_of};
ghost use Rattle.resolvo_report.specs.Text.{are_rising, literal_text};
ghost use Rattle.resolve_refusal.specs.RefusedReport.{version_at};
ghost use Rattle.resolve_refusal.specs.Refusal.{atom_at, AreLiterals, HaveForm};

use resolvo_catalogue::provider::CatalogueProvider;
use resolvo_catalogue_core::{Catalogue, Version, VersionNo};
use resolvo_pool_core::id::{NameId, SolvableId};
use resolvo_pool_core::want::R;
use resolvo_proof::step::ProofLiteral;
use resolvo_report::{Atom, Literal};
use resolvo_state::atom::ProofAtom;
use std::alloc::Global;
use std::collections::BTreeMap;

/// The literals of a clause, sorted by their texts, each once.
pub(crate) fn sorted_literals(
    alloc: Global,
    catalogue: &Catalogue,
    provider: &CatalogueProvider<'_>,
    literals: &[ProofLiteral<NameId, SolvableId>],
) -> R<Vec<Literal>>
    ensures same { IfOk result
        (λ v.
        HaveForm catalogue.now provider.now.ids literals.now
        → AreLiterals catalogue.now provider.now.ids literals.now (literals_of v.items)) }
    ensures rising { IfOk result (λ v. IsTrue (are_rising
        (map literal_text (literals_of v.items)))) }
    ensures refusal { IsOkUnless result Memory }
{
    let mut by_text: BTreeMap<String, Literal> = BTreeMap::new(alloc);
    for literal in literals {
        let written = Literal {
            atom: atom_of(alloc, catalogue, provider, literal.atom)?,
            positive: literal.positive,
        };
        let text = format!(in alloc; "{written}")?;
        by_text.insert(text, written)?;
    }
    let mut sorted = Vec::new(alloc);
    for (_, literal) in by_text {
        sorted.push(literal)?;
    }
    Ok(sorted)
}

/// The atom, in the words of a report.
fn atom_of(
    alloc: Global,
    catalogue: &Catalogue,
    provider: &CatalogueProvider<'_>,
    atom: ProofAtom<NameId, SolvableId>,
) -> R<Atom>
    ensures atom { IfOk result (λ a. atom_of a ≡ atom_at catalogue.now provider.now.ids atom) }
    ensures refusal { IsOkUnless result Memory }
{
    match atom {
        ProofAtom::Solvable(solvable) => {
            Ok(Atom::Version(version_of(alloc, catalogue, solvable)?))
        }
        ProofAtom::AtLeastOne(name) => Ok(Atom::Any {
            name: String::from_str(alloc, provider.name_of(name))?,
        }),
        ProofAtom::Gate(requirement) => Ok(Atom::Shared {
            alternatives: provider.alternatives_of(requirement)?,
        }),
        ProofAtom::Outside(version_set) => Ok(Atom::Outside {
            spec: provider.spec_of(version_set)?,
        }),
        ProofAtom::Matches(version_set) => Ok(Atom::Matches {
            spec: provider.spec_of(version_set)?,
        }),
        ProofAtom::Bit(name, bit) => Ok(Atom::Bit {
            bit,
            name: String::from_str(alloc, provider.name_of(name))?,
        }),
    }
}

/// The version of a solvable; one without a name where the catalogue lists none.
pub(crate) fn version_of(alloc: Global, catalogue: &Catalogue, solvable: SolvableId) -> R<Version>
    ensures version { IfOk result (λ v. version_of v ≡ version_at catalogue.now solvable) }
    ensures refusal { IsOkUnless result Memory }
{
    match catalogue.versions().get(VersionNo(solvable.into_raw())) {
        Some((name, number)) => Ok(Version {
            name: String::from_str(alloc, name)?,
            number,
        }),
        None => Ok(Version {
            name: String::new(alloc),
            number: 0,
        }),
    }
}
