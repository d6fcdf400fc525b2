//! Runs: consecutive edges with one requirement. The message writes a requirement and its
//! candidates once for each run.
ghost use Rattle.std.specs.Prelude.{◌≡◌, ◌++◌, ◌∷◌, [], IfOk, OnOk, IsOkUnless};
ghost use Rattle.resolvo_pool_core.specs.declared.want.Want.TheVariants.{Memory};
ghost use Rattle.resolvo_graph.specs.Runs.{runs_of, same_requirement, with_last};

use crate::graph::{Edge, NodeIndex};
use resolvo_pool_core::requirement::Requirement;
use resolvo_pool_core::want::R;
use std::alloc::Global;
use std::marker::Model;

/// A requirement, with the targets of its edges.
#[derive(Drop)]
pub(crate) struct Run {
    requirement: Requirement,
    targets: Vec<NodeIndex>,
}

impl Model for Run {
    ghost use Rattle.resolvo_graph.specs.Runs.{Run};

    ghost Value = { Run };

    ghost view = { λ r. record { requirement = r.requirement; targets = r.targets.items } };
}

impl Run {
    /// A run of one edge.
    fn one(alloc: Global, requirement: Requirement, target: NodeIndex) -> R<Run>
        ensures run { IfOk result (λ r. r ≡ record {
          requirement = requirement;
          targets = target ∷ [];
        }) }
        ensures refusal { IsOkUnless result Memory }
    {
        let mut targets = Vec::new(alloc);
        targets.push(target)?;
        Ok(Run {
            requirement,
            targets,
        })
    }

    /// This run with one edge more.
    fn with(self, target: NodeIndex) -> R<Run>
        ensures run { IfOk result
            (λ r.
            r
            ≡ record { requirement = self.requirement; targets = self.targets ++ target ∷ [] }) }
        ensures refusal { IsOkUnless result Memory }
    {
        let Run {
            requirement,
            mut targets,
        } = self;
        targets.push(target)?;
        Ok(Run {
            requirement,
            targets,
        })
    }

    /// The requirement.
    pub(crate) fn requirement(&self) -> Requirement
        ensures { result ≡ self.now.requirement }
    {
        self.requirement
    }

    /// Whether this is the run's requirement.
    fn is_of(&self, requirement: Requirement) -> bool
        ensures { result ≡ same_requirement self.now.requirement requirement }
    {
        self.requirement == requirement
    }

    /// The targets of the edges, in their order.
    pub(crate) fn targets(&self) -> &[NodeIndex]
        ensures { result.now ≡ self.now.targets }
    {
        self.targets.as_slice()
    }
}

/// The runs of some edges, in order. Conflicts are in no run.
pub(crate) fn runs<S: Copy>(alloc: Global, edges: &[Edge<S>]) -> R<Vec<Run>>
    ensures runs { IfOk result (λ v. v.items ≡ runs_of edges.now) }
    ensures refusal { IsOkUnless result Memory }
{
    let mut found = Vec::new(alloc);
    for edge in edges {
        if let Some(requirement) = edge.weight.requirement() {
            add_target(alloc, &mut found, requirement, edge.target)?;
        }
    }
    Ok(found)
}

/// Appends a target to the last run, or to a new one where that run has another requirement.
fn add_target(
    alloc: Global,
    found: &mut Vec<Run>,
    requirement: Requirement,
    target: NodeIndex,
) -> R<()>
    ensures put { OnOk result (found.new.items ≡ with_last found.old.items requirement target) }
    ensures refusal { IsOkUnless result Memory }
{
    if let Some(last) = found.pop() {
        if last.is_of(requirement) {
            found.push(last.with(target)?)?;
            return Ok(());
        }
        found.push(last)?;
    }
    found.push(Run::one(alloc, requirement, target)?)?;
    Ok(())
}
