//! The trees of the message: runs of a requirement, below them versions, below these their
//! requirements. The entries that are left to write are a stack; an entry pushes those one level
//! below it. An entry has the versions above it, and a version below itself is skipped, so a tree
//! ends on graphs with cycles.
ghost use Rattle.std.specs.Prelude.{◌≡◌, ◌++◌, ◌∷◌, [], List, IfOk, OnOk, cond, not, filter, reverse, unwrap_or, slice_get, IsOkUnless};
ghost use Rattle.std.specs.List.{list_any, dedup};
ghost use Rattle.resolvo_pool_core.specs.declared.want.Want.TheVariants.{Memory};
ghost use Rattle.resolvo_graph.specs.declared.display_line.MessageLine.{MessageLine};
ghost use Rattle.resolvo_graph.specs.declared.tree.DisplayOp.{DisplayOp};
ghost use Rattle.resolvo_graph.specs.Graph.{edges_of, is_forbidden};
ghost use Rattle.resolvo_graph.specs.Indent.{level_below};
ghost use Rattle.resolvo_graph.specs.Kept.{findings, merged_with};
ghost use Rattle.resolvo_graph.specs.Outlook.{has_target_in};
ghost use Rattle.resolvo_graph.specs.Sink.{Adds};
ghost use Rattle.resolvo_graph.specs.Walk.{is_among};
ghost use Rattle.resolvo_graph.specs.Runs.{runs_of};
ghost use Rattle.resolvo_graph.specs.Tree.{siblings, is_missing, candidates_at, reason_in, is_admitting, admitted_in, same_set, verdict_in, admitted_lines, further_lines, outlook_of, shown_of, covered_with, is_covered, firsts_after, in_rank, verdict_of, needs_of, is_passed, lines_with, version_lines, lines_at, entries_below, covered_after, IsTree, solvable_at_node, order_before};

use crate::ancestors::Above;
use crate::display_line::{MessageLine, Outlook, Sentence, Verdict, Versions};
use crate::graph::{ConflictGraph, ConflictNode, Edge, NodeIndex};
use crate::indenter::{ChildOrder, Indenter};
use crate::installability::has_some;
use crate::merge::MergedConflictNode;
use crate::runs::{Run, runs};
use crate::sink::LineSink;
use indexmap::IndexSet;
use resolvo_pool_core::id::{Exact, SolvableId, StringId, VersionSetId};
use resolvo_pool_core::want::R;
use std::alloc::Global;
use std::collections::HashMap;
use std::hash::Hash;
use std::marker::Model;
use std::rc::Rc;

/// The content of an entry of a tree.
#[derive(Drop)]
pub(crate) enum DisplayOp<S = SolvableId> {
    /// A requirement, with its candidates.
    Requirement(Run),
    /// A version, at its node.
    Candidate(NodeIndex, S),
}

/// An entry of a tree: its content, its indent, and the versions above it.
#[derive(Drop)]
pub(crate) struct Entry<S = SolvableId> {
    op: DisplayOp<S>,
    indenter: Indenter,
    above: Above,
}

impl<S> Model for Entry<S> {
    ghost use Rattle.resolvo_graph.specs.Runs.{runs_of};
    ghost use Rattle.resolvo_graph.specs.Tree.{Entry};

    ghost Value = { Entry S };

    ghost view = { λ e. record { op = e.op; indent = e.indenter; above = e.above } };
}

/// The input of a message: the graph, the installable nodes, and the merged versions.
#[derive(Drop)]
pub(crate) struct Findings<'a, S: Copy + Exact + Hash> {
    pub(crate) graph: &'a ConflictGraph<S>,
    pub(crate) installable: IndexSet<NodeIndex>,
    pub(crate) merged: &'a HashMap<S, Rc<MergedConflictNode<S>>>,
}

/// The state while a tree is written.
#[derive(Drop)]
struct TreeWriter<S: Copy + Exact + Hash> {
    /// The versions that lines cover, as parts of merged ones.
    covered: IndexSet<S>,
    /// The entries that are left to write, the next one at the end.
    stack: Vec<Entry<S>>,
    /// The lines of the last entry.
    lines: Vec<MessageLine<S>>,
}

impl<S: Copy + Exact + Hash> Findings<'_, S> {
    /// Writes the tree of the runs of some edges.
    pub(crate) fn tree<L: LineSink<S>>(
        &self,
        alloc: Global,
        edges: &[Edge<S>],
        top_level_indent: bool,
        sink: &mut L,
    ) -> R<()>
        ensures lines { OnOk result
            ((lines : List (MessageLine S))
            × IsTree (findings S.eq self.now) top_level_indent (runs_of edges.now) lines
            × Adds L.took sink.old lines sink.new) }
        ensures refusal { IsOkUnless result Memory }
    {
        let mut writer = TreeWriter {
            covered: IndexSet::new(alloc),
            stack: Vec::new(alloc),
            lines: Vec::new(alloc),
        };
        self.write_tree(alloc, edges, top_level_indent, &mut writer, sink)
    }

    /// Writes the tree of the runs of some edges, by a writer that has written nothing.
    fn write_tree<L: LineSink<S>>(
        &self,
        alloc: Global,
        edges: &[Edge<S>],
        top_level_indent: bool,
        writer: &mut TreeWriter<S>,
        sink: &mut L,
    ) -> R<()>
        requires covered { writer.old.covered.keys ≡ [] }
        requires stack { writer.old.stack.items ≡ [] }
        requires lines { writer.old.lines.items ≡ [] }
        ensures lines { OnOk result
            ((lines : List (MessageLine S))
            × IsTree (findings S.eq self.now) top_level_indent (runs_of edges.now) lines
            × Adds L.took sink.old lines sink.new) }
        ensures refusal { IsOkUnless result Memory }
    {
        self.place_top(alloc, edges, top_level_indent, &mut writer.stack)?;
        while let Some(entry) = writer.stack.pop() {
            if sink.is_full() {
                return Ok(());
            }
            self.write_entry(alloc, entry, writer)?;
            sink.take(&mut writer.lines)?;
        }
        Ok(())
    }

    /// Pushes the runs of some edges, at the top of their tree.
    fn place_top(
        &self,
        alloc: Global,
        edges: &[Edge<S>],
        top_level_indent: bool,
        stack: &mut Vec<Entry<S>>,
    ) -> R<()>
        ensures stack { OnOk result
            (stack.new.items
            ≡ stack.old.items ++ reverse
            (siblings (record { levels = []; top_level_indent = top_level_indent }) []
            (reverse
            (in_rank (findings S.eq self.now) (runs_of edges.now))))) }
        ensures refusal { IsOkUnless result Memory }
    {
        let ops = self.in_rank(alloc, runs(alloc, edges)?)?;
        place(
            alloc,
            ops,
            &Indenter::new(alloc, top_level_indent),
            &Above::none(alloc)?,
            stack,
        )
    }

    /// Writes an entry's own lines, and pushes the entries below it.
    fn write_entry(&self, alloc: Global, entry: Entry<S>, writer: &mut TreeWriter<S>) -> R<()>
        ensures covered { OnOk result
            (writer.new.covered.keys
            ≡ covered_after (findings S.eq self.now) writer.old.covered.keys entry.op entry.above) }
        ensures stack { OnOk result
            (writer.new.stack.items
            ≡ writer.old.stack.items ++ reverse
            (entries_below (findings S.eq self.now)
            writer.old.covered.keys entry.op entry.indent entry.above)) }
        ensures lines { OnOk result
            (writer.new.lines.items
            ≡ writer.old.lines.items
            ++ lines_at (findings S.eq self.now)
            writer.old.covered.keys entry.op entry.indent entry.above) }
        ensures refusal { IsOkUnless result Memory }
    {
        let Entry {
            op,
            indenter,
            above,
        } = entry;
        match op {
            DisplayOp::Requirement(run) => self.write_run(alloc, &run, indenter, &above, writer),
            DisplayOp::Candidate(node, version) => {
                if self.is_passed(&writer.covered, node, version, &above) {
                    return Ok(());
                }
                self.write_version(alloc, node, version, indenter, above, writer)
            }
        }
    }

    /// Whether a line covers a version already, or it is below itself.
    fn is_passed(&self, covered: &IndexSet<S>, node: NodeIndex, version: S, above: &Above) -> bool
        ensures { result
            ≡ is_passed (findings S.eq self.now) covered.now.keys node version above.now }
    {
        covered.contains(&version) || above.contains(&node)
    }

    /// Writes a run, and pushes its candidates.
    fn write_run(
        &self,
        alloc: Global,
        run: &Run,
        indenter: Indenter,
        above: &Above,
        writer: &mut TreeWriter<S>,
    ) -> R<()>
        ensures covered { writer.new.covered.keys ≡ writer.old.covered.keys }
        ensures stack { OnOk result
            (writer.new.stack.items
            ≡ writer.old.stack.items ++ reverse
            (entries_below (findings S.eq self.now)
            [] (DisplayOp.Requirement run.now) indenter above.now)) }
        ensures lines { OnOk result
            (writer.new.lines.items
            ≡ writer.old.lines.items
            ++ lines_at (findings S.eq self.now) [] (DisplayOp.Requirement run.now)
            indenter above.now) }
        ensures refusal { IsOkUnless result Memory }
    {
        let outlook = self.outlook(run);
        let options = self.options(alloc, run, outlook)?;
        place(alloc, options, &indenter, above, &mut writer.stack)?;
        writer.lines.push(MessageLine {
            indenter,
            sentence: Sentence::Requirement(run.requirement(), outlook),
        })?;
        Ok(())
    }

    /// Writes a version with those merged with it, and pushes its requirements.
    fn write_version(
        &self,
        alloc: Global,
        node: NodeIndex,
        version: S,
        indenter: Indenter,
        above: Above,
        writer: &mut TreeWriter<S>,
    ) -> R<()>
        ensures covered { OnOk result
            (writer.new.covered.keys
            ≡ covered_with (findings S.eq self.now) writer.old.covered.keys version) }
        ensures stack { OnOk result
            (writer.new.stack.items
            ≡ writer.old.stack.items ++ reverse
            (siblings indenter (above ++ node ∷ [])
            (reverse
            (needs_of (findings S.eq self.now) (verdict_of (findings S.eq self.now) node)
            (edges_of self.now.graph.now node))))) }
        ensures lines { OnOk result
            (writer.new.lines.items
            ≡ writer.old.lines.items
            ++ version_lines (findings S.eq self.now) node version indenter) }
        ensures refusal { IsOkUnless result Memory }
    {
        let edges = self.graph.list_edges(alloc, node)?;
        self.place_needs(alloc, node, &edges, &indenter, above, &mut writer.stack)?;
        self.mark(version, &mut writer.covered)?;
        self.add_lines(alloc, version, &edges, indenter, &mut writer.lines)
    }

    /// Pushes the requirements of a version with these edges, below it and the nodes above it.
    fn place_needs(
        &self,
        alloc: Global,
        node: NodeIndex,
        edges: &[Edge<S>],
        indenter: &Indenter,
        above: Above,
        stack: &mut Vec<Entry<S>>,
    ) -> R<()>
        ensures stack { OnOk result
            (stack.new.items
            ≡ stack.old.items ++ reverse
            (siblings indenter.now (above ++ node ∷ [])
            (reverse
            (needs_of (findings S.eq self.now)
            (verdict_in self.now.graph.now edges.now) edges.now)))) }
        ensures refusal { IsOkUnless result Memory }
    {
        let needs = self.needs(alloc, verdict(self.graph, edges), edges)?;
        place(alloc, needs, indenter, &above.with(alloc, node)?, stack)
    }

    /// Adds the lines of a version with these edges.
    fn add_lines(
        &self,
        alloc: Global,
        version: S,
        edges: &[Edge<S>],
        indenter: Indenter,
        lines: &mut Vec<MessageLine<S>>,
    ) -> R<()>
        ensures lines { OnOk result
            (lines.new.items
            ≡ lines.old.items
            ++ lines_with (findings S.eq self.now) version edges.now indenter) }
        ensures refusal { IsOkUnless result Memory }
    {
        let verdict = verdict(self.graph, edges);
        let mut further = further_lines(alloc, verdict, &indenter, edges)?;
        lines.push(MessageLine {
            indenter,
            sentence: Sentence::Versions(self.merged_versions(alloc, version)?, verdict),
        })?;
        lines.append(&mut further)?;
        Ok(())
    }

    /// The sentence on a run.
    fn outlook(&self, run: &Run) -> Outlook
        ensures { result ≡ outlook_of (findings S.eq self.now) run.now }
    {
        if is_missing(self.graph, run.targets()) {
            Outlook::Missing
        } else if has_some(run, &self.installable) {
            Outlook::Installable
        } else {
            Outlook::Hopeless
        }
    }

    /// The versions below a run.
    fn options(&self, alloc: Global, run: &Run, outlook: Outlook) -> R<Vec<DisplayOp<S>>>
        ensures options { IfOk result
            (λ v.
            v.items
            ≡ firsts_after (findings S.eq self.now) []
            (shown_of (findings S.eq self.now) outlook run.now)) }
        ensures refusal { IsOkUnless result Memory }
    {
        match outlook {
            Outlook::Missing => Ok(Vec::new(alloc)),
            Outlook::Installable => {
                let targets = installable_targets(alloc, run, &self.installable)?;
                self.firsts_among(alloc, &targets)
            }
            Outlook::Hopeless => self.firsts_among(alloc, run.targets()),
        }
    }

    /// The versions among some nodes, of merged ones only the first.
    fn firsts_among(&self, alloc: Global, nodes: &[NodeIndex]) -> R<Vec<DisplayOp<S>>>
        ensures firsts { IfOk result
            (λ v.
            v.items
            ≡ firsts_after (findings S.eq self.now) []
            (candidates_at self.now.graph.now nodes.now)) }
        ensures refusal { IsOkUnless result Memory }
    {
        let candidates = candidates(alloc, self.graph, nodes)?;
        self.firsts(alloc, &candidates)
    }

    /// The versions, of merged ones only the first.
    fn firsts(&self, alloc: Global, candidates: &[(NodeIndex, S)]) -> R<Vec<DisplayOp<S>>>
        ensures firsts { IfOk result
            (λ v. v.items ≡ firsts_after (findings S.eq self.now) [] candidates.now) }
        ensures refusal { IsOkUnless result Memory }
    {
        let mut covered = IndexSet::new(alloc);
        let mut found = Vec::new(alloc);
        for (node, version) in candidates {
            self.add_first(*node, *version, &mut covered, &mut found)?;
        }
        Ok(found)
    }

    /// Adds a version, unless it is merged with one that was added.
    fn add_first(
        &self,
        node: NodeIndex,
        version: S,
        covered: &mut IndexSet<S>,
        found: &mut Vec<DisplayOp<S>>,
    ) -> R<()>
        ensures covered { OnOk result
            (covered.new.keys
            ≡ cond
            (is_covered (findings S.eq self.now) covered.old.keys version)
            covered.old.keys
            (covered_with (findings S.eq self.now) covered.old.keys version)) }
        ensures found { OnOk result
            (found.new.items
            ≡ found.old.items ++ cond
            (is_covered (findings S.eq self.now) covered.old.keys version)
            [] (DisplayOp.Candidate node version ∷ [])) }
        ensures refusal { IsOkUnless result Memory }
    {
        if !covered.contains(&version) {
            self.mark(version, covered)?;
            found.push(DisplayOp::Candidate(node, version))?;
        }
        Ok(())
    }

    /// Marks the versions that are merged with one as covered.
    fn mark(&self, version: S, covered: &mut IndexSet<S>) -> R<()>
        ensures covered { OnOk result
            (covered.new.keys
            ≡ covered_with (findings S.eq self.now) covered.old.keys version) }
        ensures refusal { IsOkUnless result Memory }
    {
        if let Some(group) = self.merged.get(&version) {
            for id in &group.ids {
                covered.insert_full(*id)?;
            }
        }
        Ok(())
    }

    /// The versions that are merged with one, or that one alone.
    fn merged_versions(&self, alloc: Global, version: S) -> R<Versions<S>>
        ensures versions { IfOk result
            (λ v. v ≡ unwrap_or (merged_with S.eq self.now.merged.now version) (version ∷ [])) }
        ensures refusal { IsOkUnless result Memory }
    {
        if let Some(group) = self.merged.get(&version) {
            return Ok(Versions::new(Vec::from_slice(alloc, group.ids.as_slice())?));
        }
        Versions::one(alloc, version)
    }

    /// The runs below a version with this verdict and these edges.
    fn needs(&self, alloc: Global, verdict: Verdict, edges: &[Edge<S>]) -> R<Vec<DisplayOp<S>>>
        ensures needs { IfOk result
            (λ v. v.items ≡ needs_of (findings S.eq self.now) verdict edges.now) }
        ensures refusal { IsOkUnless result Memory }
    {
        match verdict {
            Verdict::Requires => self.in_rank(alloc, runs(alloc, edges)?),
            _ => Ok(Vec::new(alloc)),
        }
    }

    /// The runs, those with an installable target last.
    fn in_rank(&self, alloc: Global, runs: Vec<Run>) -> R<Vec<DisplayOp<S>>>
        ensures rank { IfOk result
            (λ v. v.items ≡ in_rank (findings S.eq self.now) runs.items) }
        ensures refusal { IsOkUnless result Memory }
    {
        let mut ranked = Vec::new(alloc);
        let mut installable = Vec::new(alloc);
        for run in runs {
            add_run(run, &self.installable, &mut ranked, &mut installable)?;
        }
        ranked.append(&mut installable)?;
        Ok(ranked)
    }
}

/// Whether these are the unresolved node alone.
fn is_missing<S: Copy + Exact + Hash>(graph: &ConflictGraph<S>, targets: &[NodeIndex]) -> bool
    ensures { result ≡ is_missing graph.now targets.now }
{
    match targets {
        [target] => graph.is_unresolved(*target),
        _ => false,
    }
}

/// The targets of a run that can be installed.
fn installable_targets(
    alloc: Global,
    run: &Run,
    installable: &IndexSet<NodeIndex>,
) -> R<Vec<NodeIndex>>
    ensures targets { IfOk result (λ v. v.items ≡ filter (is_among installable.now.keys)
        run.now.targets) }
    ensures refusal { IsOkUnless result Memory }
{
    let mut found = Vec::new(alloc);
    for target in run.targets() {
        if installable.contains(target) {
            found.push(*target)?;
        }
    }
    Ok(found)
}

/// The versions among some nodes.
fn candidates<S: Copy + Exact + Hash>(
    alloc: Global,
    graph: &ConflictGraph<S>,
    nodes: &[NodeIndex],
) -> R<Vec<(NodeIndex, S)>>
    ensures versions { IfOk result (λ v. v.items ≡ candidates_at graph.now nodes.now) }
    ensures refusal { IsOkUnless result Memory }
{
    let mut found = Vec::new(alloc);
    for node in nodes {
        if let Some(version) = version_at(graph, *node) {
            found.push((*node, version))?;
        }
    }
    Ok(found)
}

/// The version of a node, if it has one.
fn version_at<S: Copy + Exact + Hash>(graph: &ConflictGraph<S>, node: NodeIndex) -> Option<S>
    ensures { result ≡ solvable_at_node (slice_get graph.now.nodes node.0) }
{
    match graph.node(node) {
        Some(node) => node.solvable(),
        None => None,
    }
}

/// The verdict on a version with these edges.
fn verdict<S: Copy + Exact + Hash>(graph: &ConflictGraph<S>, edges: &[Edge<S>]) -> Verdict
    ensures { result ≡ verdict_in graph.now edges.now }
{
    if let Some(reason) = reason(graph, edges) {
        Verdict::Excluded(reason)
    } else if edges.is_empty() {
        Verdict::Alone
    } else if has_forbidden(edges) {
        Verdict::Conflicts
    } else if has_admitted(edges) {
        Verdict::Constrains
    } else {
        Verdict::Requires
    }
}

/// The reason of the first exclusion among these edges.
fn reason<S: Copy + Exact + Hash>(graph: &ConflictGraph<S>, edges: &[Edge<S>]) -> Option<StringId>
    ensures { result ≡ reason_in graph.now edges.now }
{
    for edge in edges {
        if edge.weight.is_exclusion() {
            if let Some(ConflictNode::Excluded(reason)) = graph.node(edge.target) {
                return Some(reason);
            }
        }
    }
    None
}

/// Adds a run to those with a marked target, or to the others.
fn add_run<S: Copy>(
    run: Run,
    marked: &IndexSet<NodeIndex>,
    others: &mut Vec<DisplayOp<S>>,
    with_marked: &mut Vec<DisplayOp<S>>,
) -> R<()>
    ensures others { OnOk result
        (others.new.items
        ≡ others.old.items
        ++ cond (not (has_target_in marked.now.keys run)) (DisplayOp.Requirement run ∷ []) []) }
    ensures marked { OnOk result
        (with_marked.new.items
        ≡ with_marked.old.items
        ++ cond (has_target_in marked.now.keys run) (DisplayOp.Requirement run ∷ []) []) }
    ensures refusal { IsOkUnless result Memory }
{
    if has_some(&run, marked) {
        with_marked.push(DisplayOp::Requirement(run))?;
    } else {
        others.push(DisplayOp::Requirement(run))?;
    }
    Ok(())
}

/// Pushes siblings one level below an indent, so that the first is written last.
fn place<S: Copy>(
    alloc: Global,
    ops: Vec<DisplayOp<S>>,
    indenter: &Indenter,
    above: &Above,
    stack: &mut Vec<Entry<S>>,
) -> R<()>
    ensures stack { OnOk result
        (stack.new.items
        ≡ stack.old.items ++ reverse (siblings indenter.now above.now (reverse ops.items))) }
    ensures refusal { IsOkUnless result Memory }
{
    let mut order = ChildOrder::Last;
    for op in ops {
        stack.push(sibling(alloc, op, indenter, order, above)?)?;
        order = ChildOrder::HasRemainingSiblings;
    }
    Ok(())
}

/// An entry one level below an indent.
fn sibling<S: Copy>(
    alloc: Global,
    op: DisplayOp<S>,
    indenter: &Indenter,
    order: ChildOrder,
    above: &Above,
) -> R<Entry<S>>
    ensures entry { IfOk result
        (λ e. e ≡ record { op = op; indent = level_below indenter.now order; above = above.now }) }
    ensures refusal { IsOkUnless result Memory }
{
    Ok(Entry {
        op,
        indenter: indenter.push_level(alloc, order)?,
        above: above.share()?,
    })
}

/// The further lines of a version with this verdict and these edges.
fn further_lines<S: Copy>(
    alloc: Global,
    verdict: Verdict,
    indenter: &Indenter,
    edges: &[Edge<S>],
) -> R<Vec<MessageLine<S>>>
    ensures lines { IfOk result (λ v. v.items ≡ further_lines verdict indenter.now edges.now) }
    ensures refusal { IsOkUnless result Memory }
{
    match verdict {
        Verdict::Constrains => admitted_lines(alloc, indenter, &admitted(alloc, edges)?),
        _ => Ok(Vec::new(alloc)),
    }
}

/// Whether one of these edges is between versions of one package.
fn has_forbidden<S: Copy>(edges: &[Edge<S>]) -> bool
    ensures { result ≡ list_any (λ e. is_forbidden e.weight) edges.now }
{
    edges.iter().any(|edge| edge.weight.is_forbidden())
}

/// Whether the source of one of these edges admits some versions alone.
fn has_admitted<S: Copy>(edges: &[Edge<S>]) -> bool
    ensures { result ≡ list_any is_admitting edges.now }
{
    edges.iter().any(|edge| edge.weight.admitted().is_some())
}

/// The version sets that a node with these edges admits alone, without consecutive repeats.
fn admitted<S: Copy>(alloc: Global, edges: &[Edge<S>]) -> R<Vec<VersionSetId>>
    ensures version_sets { IfOk result (λ v. v.items ≡ dedup same_set (admitted_in edges.now)) }
    ensures refusal { IsOkUnless result Memory }
{
    let mut found = all_admitted(alloc, edges)?;
    found.dedup();
    Ok(found)
}

/// The version sets that a node with these edges admits alone.
fn all_admitted<S: Copy>(alloc: Global, edges: &[Edge<S>]) -> R<Vec<VersionSetId>>
    ensures version_sets { IfOk result (λ v. v.items ≡ admitted_in edges.now) }
    ensures refusal { IsOkUnless result Memory }
{
    let mut found = Vec::new(alloc);
    for edge in edges {
        if let Some(version_set) = edge.weight.admitted() {
            found.push(version_set)?;
        }
    }
    Ok(found)
}

/// A line for each version set that a version admits alone, one level deeper.
fn admitted_lines<S: Copy>(
    alloc: Global,
    indenter: &Indenter,
    version_sets: &[VersionSetId],
) -> R<Vec<MessageLine<S>>>
    ensures lines { IfOk result (λ v. v.items ≡ admitted_lines indenter.now version_sets.now) }
    ensures refusal { IsOkUnless result Memory }
{
    let mut lines = Vec::new(alloc);
    let mut rest = version_sets;
    while let Some((version_set, below)) = rest.split_first() {
        let sentence = Sentence::Admitted(*version_set);
        add_line(alloc, indenter, order_before(below), sentence, &mut lines)?;
        rest = below;
    }
    Ok(lines)
}

/// Adds a line with this sentence, one level below an indent.
pub(crate) fn add_line<S: Copy>(
    alloc: Global,
    indenter: &Indenter,
    order: ChildOrder,
    sentence: Sentence<S>,
    lines: &mut Vec<MessageLine<S>>,
) -> R<()>
    ensures line { OnOk result
        (lines.new.items
        ≡ lines.old.items
        ++ record { indenter = level_below indenter.now order; sentence = sentence } ∷ []) }
    ensures refusal { IsOkUnless result Memory }
{
    let indenter = indenter.push_level(alloc, order)?;
    lines.push(MessageLine { indenter, sentence })?;
    Ok(())
}

/// Whether an entry with these siblings below it is the last one.
pub(crate) fn order_before<T>(below: &[T]) -> ChildOrder
    ensures { result ≡ order_before below.now }
{
    if below.is_empty() {
        ChildOrder::Last
    } else {
        ChildOrder::HasRemainingSiblings
    }
}
