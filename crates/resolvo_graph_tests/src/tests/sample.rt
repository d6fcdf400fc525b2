//! Ids with a meaning that shows in their digits, and graphs drawn with them. The version 100 p + v
//! is version v of package p; the version set 1,000,000 p + 1,000 low + high holds the versions of
//! package p from low to below high, or all where both are 0, or low alone where high is 0.
//! Packages 0 to 4 are a, b, c, s and w. There is one union.
ghost use Rattle.std.specs.Prelude.{◌≡◌};
ghost use Rattle.std.specs.Fmt.{WritesOnOk};
ghost use Rattle.resolvo_graph_tests.specs.Sample.{letter, span_text, word, merged};

use resolvo_graph::{ConflictCause, ConflictEdge, ConflictGraph, ConflictNode, DisplayUnsat};
use resolvo_pool::{
    Condition, ConditionId, Interner, NameId, R, Requirement, SolvableId, StringId, VersionSetId,
    VersionSetUnionId,
};
use std::alloc::{AllocError, Global};
use std::fmt;

/// The meaning of the ids, with the version sets of the one union.
#[derive(Drop)]
pub struct Sample {
    pub members: Vec<VersionSetId>,
}

/// The letter of a package.
#[tactic(auto, unfolding(crate::specs::Sample::letter))]
fn letter(number: u32) -> &'static str
    ensures { result.now ≡ letter number }
{
    match number {
        0 => "a",
        1 => "b",
        2 => "c",
        3 => "s",
        _ => "w",
    }
}

/// A word of reason.
#[tactic(auto, unfolding(crate::specs::Sample::word))]
fn word(reason: StringId) -> &'static str
    ensures { result.now ≡ word reason.0 }
{
    match reason.0 {
        0 => "old",
        _ => "broken",
    }
}

impl Interner for Sample {
    ghost use Rattle.std.specs.Prelude.{◌/◌, ◌%◌, ◌++◌, codes, ⊤};
    ghost use Rattle.std.specs.Fmt.{decimal};
    ghost use Rattle.resolvo_pool_core.specs.declared.condition.Condition.TheVariants.{Requirement};
    ghost use Rattle.resolvo_graph_tests.specs.Sample.{letter, span_text, word, merged};

    type NameId = NameId;

    type SolvableId = SolvableId;

    ghost name_of_solvable = { λ p s. record { raw = s.raw / 100; tag = record {} } };

    ghost name_of_version_set = { λ p v. record { raw = v.0 / 1000000; tag = record {} } };

    ghost members_of = { λ p u. p.members.items };

    ghost condition_of = { λ p c. Requirement (record { 0 = 0 }) };

    ghost solvable_text = { λ p s. decimal s.raw };

    ghost solvable_name_text = { λ p s. letter (s.raw / 100) };

    ghost merged_text = { λ p xs. merged xs };

    ghost name_text = { λ p n. letter n.raw };

    ghost version_set_text = { λ p v. span_text v.0 };

    ghost string_text = { λ p s. word s.0 };

    ghost operands_below = { λ p c. tt };

    fn display_solvable<W: fmt::Write>(
        &self,
        solvable: SolvableId,
        f: &mut fmt::Formatter<W>,
    ) -> fmt::Result {
        let number = solvable.into_raw();
        write!(f, "{number}")
    }

    fn display_solvable_name<W: fmt::Write>(
        &self,
        solvable: SolvableId,
        f: &mut fmt::Formatter<W>,
    ) -> fmt::Result {
        f.write_str(letter(solvable.into_raw() / 100))
    }

    fn display_merged_solvables<W: fmt::Write>(
        &self,
        solvables: &[SolvableId],
        f: &mut fmt::Formatter<W>,
    ) -> fmt::Result {
        let Some((first, others)) = solvables.split_first() else {
            return Ok(());
        };
        let name = letter(first.into_raw() / 100);
        let version = first.into_raw() % 100;
        write!(f, "{name} {version}")?;
        for other in others {
            let version = other.into_raw() % 100;
            write!(f, " | {version}")?;
        }
        Ok(())
    }

    fn display_name<W: fmt::Write>(&self, name: NameId, f: &mut fmt::Formatter<W>) -> fmt::Result {
        f.write_str(letter(name.into_raw()))
    }

    fn display_version_set<W: fmt::Write>(
        &self,
        version_set: VersionSetId,
        f: &mut fmt::Formatter<W>,
    ) -> fmt::Result {
        let low = version_set.0 / 1000 % 1000;
        let high = version_set.0 % 1000;
        if high > 0 {
            write!(f, "{low}..{high}")
        } else if low > 0 {
            write!(f, "{low}")
        } else {
            f.write_str("*")
        }
    }

    fn display_string<W: fmt::Write>(
        &self,
        string: StringId,
        f: &mut fmt::Formatter<W>,
    ) -> fmt::Result {
        f.write_str(word(string))
    }

    fn version_set_name(&self, version_set: VersionSetId) -> NameId {
        NameId::from_raw(version_set.0 / 1_000_000)
    }

    fn solvable_name(&self, solvable: SolvableId) -> NameId {
        NameId::from_raw(solvable.into_raw() / 100)
    }

    fn version_sets_in_union(&self, _union: VersionSetUnionId) -> &[VersionSetId] {
        self.members.as_slice()
    }

    fn resolve_condition(&self, _condition: ConditionId) -> Condition {
        Condition::Requirement(VersionSetId(0))
    }
}

/// A node of a drawing.
#[derive(Clone, Copy)]
pub enum Place {
    Root,
    Version(u32),
    Unresolved,
    Word(u32),
}

/// An edge of a drawing, between two places.
#[derive(Clone, Copy)]
pub enum Link {
    /// The first needs the version set, of which the second is a candidate.
    Needs(Place, u32, Place),
    /// The first needs the union.
    NeedsEither(Place, Place),
    /// The first is locked, so the problem forbids the second.
    Locks(u32, Place),
    /// The first admits the version set alone, of which the second is none.
    Admits(Place, u32, Place),
    /// Versions of one package.
    Forbids(Place, Place),
    /// The first is excluded for the second.
    Excludes(Place, Place),
}

fn node(place: Place) -> ConflictNode {
    match place {
        Place::Root => ConflictNode::Root,
        Place::Version(version) => ConflictNode::Solvable(SolvableId::from_raw(version)),
        Place::Unresolved => ConflictNode::UnresolvedDependency,
        Place::Word(reason) => ConflictNode::Excluded(StringId(reason)),
    }
}

fn ends(link: Link) -> (Place, Place) {
    match link {
        Link::Needs(from, _, to)
        | Link::NeedsEither(from, to)
        | Link::Admits(from, _, to)
        | Link::Forbids(from, to)
        | Link::Excludes(from, to) => (from, to),
        Link::Locks(_, to) => (Place::Root, to),
    }
}

fn weight(link: Link) -> ConflictEdge {
    match link {
        Link::Needs(_, set, _) => ConflictEdge::Requires(Requirement::Single(VersionSetId(set))),
        Link::NeedsEither(_, _) => ConflictEdge::Requires(Requirement::Union(VersionSetUnionId(0))),
        Link::Locks(version, _) => ConflictEdge::Conflict(ConflictCause::Locked(
            SolvableId::from_raw(version),
        )),
        Link::Admits(_, set, _) => ConflictEdge::Conflict(ConflictCause::Constrains(VersionSetId(
            set,
        ))),
        Link::Forbids(_, _) => ConflictEdge::Conflict(ConflictCause::ForbidMultipleInstances),
        Link::Excludes(_, _) => ConflictEdge::Conflict(ConflictCause::Excluded),
    }
}

/// Adds a link and its ends, as far as they aren't there.
fn draw(graph: &mut ConflictGraph, link: Link) -> R<()> {
    let (from, to) = ends(link);
    let source = graph.add_node(node(from))?;
    let target = graph.add_node(node(to))?;
    if graph.has_node(source) && graph.has_node(target) {
        graph.add_edge(source, target, weight(link))?;
    }
    Ok(())
}

fn draw_all(graph: &mut ConflictGraph, links: &[Link]) -> R<()> {
    for link in links {
        draw(graph, *link)?;
    }
    Ok(())
}

/// The graph of some links, whose nodes are in the order in which they are first named.
pub fn drawn(alloc: Global, links: &[Link]) -> R<ConflictGraph> {
    let mut graph = ConflictGraph::new(alloc)?;
    draw_all(&mut graph, links)?;
    Ok(graph)
}

/// A value as text.
pub fn text_of<D: fmt::Display>(alloc: Global, shown: &D) -> R<String> {
    Ok(format!(in alloc; "{shown}")?)
}

fn message_by<I: Interner>(
    alloc: Global,
    graph: &ConflictGraph<I::SolvableId>,
    interner: &I,
) -> R<String> {
    match DisplayUnsat::new(alloc, graph, interner) {
        Ok(shown) => text_of(alloc, &shown),
        Err(want) => Err(want),
    }
}

fn make_sample(alloc: Global) -> Result<Sample, AllocError> {
    Ok(Sample {
        members: vec![in alloc; VersionSetId(1_000_000), VersionSetId(2_003_000)]?,
    })
}

/// The message of a graph.
pub fn message(alloc: Global, graph: &ConflictGraph) -> R<String> {
    message_by(alloc, graph, &make_sample(alloc)?)
}

/// The message of the graph of some links.
pub fn message_of(alloc: Global, links: &[Link]) -> R<String> {
    message(alloc, &drawn(alloc, links)?)
}
