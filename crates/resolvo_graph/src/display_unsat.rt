//! The whole message: requirements without candidates, incompatible packages, and the conflicts of
//! the root. Its lines are built by `new`, so that writing them takes no memory. `length_below`
//! counts their bytes first, and keeps none of them.
ghost use Rattle.std.specs.Prelude.{◌≡◌, ◌++◌, ◌∷◌, [], true, List, IfOk, OnOk, Some, cond, filter, IsOkUnless};
ghost use Rattle.resolvo_pool_core.specs.declared.want.Want.TheVariants.{Memory};
ghost use Rattle.resolvo_graph.specs.declared.display_line.MessageLine.{MessageLine};
ghost use Rattle.resolvo_graph.specs.Graph.{edges_of};
ghost use Rattle.resolvo_graph.specs.Message.{IsMessage, ArePartsAlong, AreLinesAlong, AreLinesWith, IsLengthBelow, AreParts, IsSecondPart, heading, conflict_sentence, conflict_line, conflict_lines, misses, fits, text_of};
ghost use Rattle.resolvo_graph.specs.Kept.{findings, merged_with};
ghost use Rattle.resolvo_graph.specs.Sink.{Adds};
ghost use Rattle.resolvo_graph.specs.Words.{meaning_by};

use crate::count::Count;
use crate::display_line::{DisplayLine, MessageLine, Sentence, Verdict, Versions};
use crate::graph::{ConflictCause, ConflictEdge, ConflictGraph, Edge, NodeIndex};
use crate::indenter::{ChildOrder, Indenter};
use crate::installability::{installable, missing};
use crate::merge::MergedConflictNode;
use crate::sink::LineSink;
use crate::tree::{Findings, add_line, order_before};
use crate::walk::post_order;
use indexmap::IndexSet;
use resolvo_pool_core::id::Exact;
use resolvo_pool_core::provider::Interner;
use resolvo_pool_core::solver_id::SolverId;
use resolvo_pool_core::want::R;
use std::alloc::Global;
use std::collections::HashMap;
use std::fmt;
use std::hash::Hash;
use std::rc::Rc;

/// The message of a conflict graph.
#[derive(Drop)]
pub struct DisplayUnsat<'a, I: Interner> {
    pub(crate) interner: &'a I,
    pub(crate) lines: Vec<MessageLine<I::SolvableId>>,
}

impl<'a, I: Interner> DisplayUnsat<'a, I> {
    /// Builds the message of a graph.
    pub fn new(
        alloc: Global,
        graph: &ConflictGraph<I::SolvableId>,
        interner: &'a I,
    ) -> R<DisplayUnsat<'a, I>>
        ensures lines { IfOk result
            (λ d.
            IsMessage I.NameId.eq I.SolvableId.eq (I.name_of_solvable interner.now) graph.now
            d.lines.items) }
        ensures interner { IfOk result (λ d. d.interner.now ≡ interner.now) }
        ensures refusal { IsOkUnless result Memory }
    {
        let mut lines = Vec::new(alloc);
        write_lines(alloc, graph, interner, &mut lines)?;
        Ok(DisplayUnsat { interner, lines })
    }

    /// How many bytes the message of a graph has, if fewer than a bound. No line is kept, and none
    /// is written after the bound.
    pub fn length_below(
        alloc: Global,
        graph: &ConflictGraph<I::SolvableId>,
        interner: &'a I,
        bound: u64,
    ) -> R<Option<u64>>
        ensures length { IfOk result
            (IsLengthBelow
            (IsMessage I.NameId.eq I.SolvableId.eq (I.name_of_solvable interner.now) graph.now)
            (meaning_by I.Interner interner.now)
            bound) }
        ensures refusal { IsOkUnless result Memory }
    {
        let page = DisplayUnsat {
            interner,
            lines: Vec::new(alloc),
        };
        let mut count = Count { page, left: bound };
        write_lines(alloc, graph, interner, &mut count)?;
        if count.left == 0 {
            return Ok(None);
        }
        Ok(Some(bound.saturating_sub(count.left)))
    }
}

impl<I: Interner> fmt::Display for DisplayUnsat<'_, I> {
    ghost output = { λ d.
        Some
        (text_of
        (meaning_by I.Interner d.interner.now)
        d.lines.items) };

    fn fmt<W: fmt::Write>(&self, f: &mut fmt::Formatter<W>) -> fmt::Result {
        for line in &self.lines {
            let shown = DisplayLine {
                line,
                interner: self.interner,
            };
            write!(f, "{shown}")?;
        }
        Ok(())
    }
}

/// Writes the lines of the message of a graph.
fn write_lines<S: SolverId, I: Interner<SolvableId = S>, L: LineSink<S>>(
    alloc: Global,
    graph: &ConflictGraph<S>,
    interner: &I,
    sink: &mut L,
) -> R<()>
    ensures lines { OnOk result
        ((lines : List (MessageLine S))
        × IsMessage I.NameId.eq S.eq (I.name_of_solvable interner.now) graph.now lines
        × Adds L.took sink.old lines sink.new) }
    ensures refusal { IsOkUnless result Memory }
{
    let merged = graph.simplify(alloc, interner)?;
    write_merged(alloc, graph, &merged, sink)
}

/// Writes the lines of the message of a graph with these merged versions.
fn write_merged<S: Copy + Exact + Hash, L: LineSink<S>>(
    alloc: Global,
    graph: &ConflictGraph<S>,
    merged: &HashMap<S, Rc<MergedConflictNode<S>>>,
    sink: &mut L,
) -> R<()>
    ensures lines { OnOk result
        ((lines : List (MessageLine S))
        × AreLinesWith S.eq (merged_with S.eq merged.now) graph.now lines
        × Adds L.took sink.old lines sink.new) }
    ensures refusal { IsOkUnless result Memory }
{
    let order = post_order(alloc, graph)?;
    // split for the prover: one drop
    let done = write_along(alloc, graph, merged, order.as_slice(), sink);
    done
}

/// Writes the lines of the message of a graph with these merged versions, along this walk.
fn write_along<S: Copy + Exact + Hash, L: LineSink<S>>(
    alloc: Global,
    graph: &ConflictGraph<S>,
    merged: &HashMap<S, Rc<MergedConflictNode<S>>>,
    order: &[NodeIndex],
    sink: &mut L,
) -> R<()>
    ensures lines { OnOk result
        ((lines : List (MessageLine S))
        × AreLinesAlong S.eq (merged_with S.eq merged.now) graph.now order.now lines
        × Adds L.took sink.old lines sink.new) }
    ensures refusal { IsOkUnless result Memory }
{
    let missing = missing(alloc, graph, order)?;
    // split for the prover: one drop
    let done = write_found(alloc, graph, merged, order, &missing, sink);
    done
}

/// Writes these lines, where these nodes miss a candidate.
fn write_found<S: Copy + Exact + Hash, L: LineSink<S>>(
    alloc: Global,
    graph: &ConflictGraph<S>,
    merged: &HashMap<S, Rc<MergedConflictNode<S>>>,
    order: &[NodeIndex],
    missing: &IndexSet<NodeIndex>,
    sink: &mut L,
) -> R<()>
    ensures lines { OnOk result
        ((lines : List (MessageLine S))
        × ArePartsAlong S.eq (merged_with S.eq merged.now) graph.now order.now
        missing.now.keys lines
        × Adds L.took sink.old lines sink.new) }
    ensures refusal { IsOkUnless result Memory }
{
    let findings = Findings {
        graph,
        installable: installable(alloc, graph, order)?,
        merged,
    };
    findings.message(alloc, missing, sink)
}

impl<S: Copy + Exact + Hash> Findings<'_, S> {
    /// Writes the lines of the message, where these nodes miss a candidate.
    fn message<L: LineSink<S>>(
        &self,
        alloc: Global,
        missing: &IndexSet<NodeIndex>,
        sink: &mut L,
    ) -> R<()>
        ensures lines { OnOk result
            ((lines : List (MessageLine S))
            × AreParts (findings S.eq self.now)
            missing.now.keys (edges_of self.now.graph.now (record { 0 = 0 })) lines
            × Adds L.took sink.old lines sink.new) }
        ensures refusal { IsOkUnless result Memory }
    {
        let edges = self.graph.list_edges(alloc, self.graph.root_node())?;
        // split for the prover: one drop
        let done = self.both_parts(alloc, &edges, missing, sink);
        done
    }

    /// Writes both parts of the message, of these edges of the root.
    fn both_parts<L: LineSink<S>>(
        &self,
        alloc: Global,
        edges: &[Edge<S>],
        missing: &IndexSet<NodeIndex>,
        sink: &mut L,
    ) -> R<()>
        ensures lines { OnOk result
            ((lines : List (MessageLine S))
            × AreParts (findings S.eq self.now) missing.now.keys edges.now lines
            × Adds L.took sink.old lines sink.new) }
        ensures refusal { IsOkUnless result Memory }
    {
        let (without, others) = partition(alloc, edges, missing)?;
        self.tree(alloc, &without, false, sink)?;
        self.second_part(alloc, &others, edges, sink)
    }

    /// Writes the second part of the message: the tree of these edges of the root, and the
    /// conflicts among all its edges.
    fn second_part<L: LineSink<S>>(
        &self,
        alloc: Global,
        others: &[Edge<S>],
        edges: &[Edge<S>],
        sink: &mut L,
    ) -> R<()>
        ensures lines { OnOk result
            ((lines : List (MessageLine S))
            × IsSecondPart (findings S.eq self.now) others.now edges.now lines
            × Adds L.took sink.old lines sink.new) }
        ensures refusal { IsOkUnless result Memory }
    {
        if others.is_empty() {
            return Ok(());
        }
        take_heading(alloc, sink)?;
        self.tree(alloc, others, true, sink)?;
        take_conflicts(alloc, edges, sink)
    }
}

/// Writes the heading of the second part.
fn take_heading<S: Copy, L: LineSink<S>>(alloc: Global, sink: &mut L) -> R<()>
    ensures took { OnOk result (Adds L.took sink.old (heading ∷ []) sink.new) }
    ensures refusal { IsOkUnless result Memory }
{
    let mut lines = Vec::new(alloc);
    lines.push(MessageLine {
        indenter: Indenter::new(alloc, true),
        sentence: Sentence::Incompatible,
    })?;
    sink.take(&mut lines)
}

/// Writes the lines of the root's own conflicts.
fn take_conflicts<S: Copy, L: LineSink<S>>(alloc: Global, edges: &[Edge<S>], sink: &mut L) -> R<()>
    ensures took { OnOk result (Adds L.took sink.old (conflict_lines edges.now) sink.new) }
    ensures refusal { IsOkUnless result Memory }
{
    let mut lines = conflict_lines(alloc, edges)?;
    sink.take(&mut lines)
}

/// The edges whose targets miss a candidate, and the others.
fn partition<S: Copy>(
    alloc: Global,
    edges: &[Edge<S>],
    missing: &IndexSet<NodeIndex>,
) -> R<(Vec<Edge<S>>, Vec<Edge<S>>)>
    ensures missing { IfOk result (λ p. p.0.items ≡ filter (misses missing.now.keys) edges.now) }
    ensures others { IfOk result (λ p. p.1.items ≡ filter (fits missing.now.keys) edges.now) }
    ensures refusal { IsOkUnless result Memory }
{
    let mut without = Vec::new(alloc);
    let mut others = Vec::new(alloc);
    for edge in edges {
        add_edge(*edge, missing, &mut without, &mut others)?;
    }
    Ok((without, others))
}

/// Adds an edge to those whose targets miss a candidate, or to the others.
fn add_edge<S: Copy>(
    edge: Edge<S>,
    missing: &IndexSet<NodeIndex>,
    without: &mut Vec<Edge<S>>,
    others: &mut Vec<Edge<S>>,
) -> R<()>
    ensures missing { OnOk result
        (without.new.items
        ≡ without.old.items ++ cond (misses missing.now.keys edge) (edge ∷ []) []) }
    ensures others { OnOk result
        (others.new.items
        ≡ others.old.items ++ cond (fits missing.now.keys edge) (edge ∷ []) []) }
    ensures refusal { IsOkUnless result Memory }
{
    if missing.contains(&edge.target) {
        without.push(edge)?;
    } else {
        others.push(edge)?;
    }
    Ok(())
}

/// The lines of the root's own conflicts.
fn conflict_lines<S: Copy>(alloc: Global, edges: &[Edge<S>]) -> R<Vec<MessageLine<S>>>
    ensures lines { IfOk result (λ v. v.items ≡ conflict_lines edges.now) }
    ensures refusal { IsOkUnless result Memory }
{
    let mut lines = Vec::new(alloc);
    let mut rest = edges;
    while let Some((edge, below)) = rest.split_first() {
        add_conflict(alloc, edge.weight, order_before(below), &mut lines)?;
        rest = below;
    }
    Ok(lines)
}

/// Adds the line of a conflict of the root itself, if it has one.
fn add_conflict<S: Copy>(
    alloc: Global,
    weight: ConflictEdge<S>,
    order: ChildOrder,
    lines: &mut Vec<MessageLine<S>>,
) -> R<()>
    ensures line { OnOk result
        (lines.new.items
        ≡ lines.old.items ++ conflict_line weight
        (record { levels = order ∷ []; top_level_indent = true })) }
    ensures refusal { IsOkUnless result Memory }
{
    match conflict_sentence(alloc, weight)? {
        None => Ok(()),
        Some(sentence) => {
            let top = Indenter::new(alloc, true);
            add_line(alloc, &top, order, sentence, lines)
        }
    }
}

/// The sentence on a conflict of the root itself: a constraint, or a lock.
fn conflict_sentence<S: Copy>(alloc: Global, weight: ConflictEdge<S>) -> R<Option<Sentence<S>>>
    ensures sentence { IfOk result (λ s. s ≡ conflict_sentence weight) }
    ensures refusal { IsOkUnless result Memory }
{
    match weight {
        ConflictEdge::Conflict(ConflictCause::Locked(version)) => {
            let versions = Versions::one(alloc, version)?;
            Ok(Some(Sentence::Versions(versions, Verdict::Locked)))
        }
        ConflictEdge::Conflict(ConflictCause::Constrains(version_set)) => {
            Ok(Some(Sentence::Constraint(version_set)))
        }
        ConflictEdge::Requires(_)
        | ConflictEdge::Conflict(
            ConflictCause::ForbidMultipleInstances | ConflictCause::Excluded,
        ) => Ok(None),
    }
}
