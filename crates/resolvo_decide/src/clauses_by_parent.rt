//! The clauses of each parent. Those of one parent are linked, from the last one to the first, so
//! that no parent has a list of its own.
ghost use Rattle.std.specs.Prelude.{◌≡◌, ℕ, ◌<◌, ◌≤◌, [], length, slice_get, slice_index_or, Some, OnOk, IfOk, IfSome, IsOkUnless};
ghost use Rattle.resolvo_pool_core.specs.declared.want.Want.TheVariants.{Memory};
ghost use Rattle.resolvo_decide.specs.Links.{link_at, IsLinked};
ghost use Rattle.resolvo_decide.specs.declared.clauses_by_parent.Link.{Link};

use resolvo_pool_core::id::VariableId;
use resolvo_pool_core::want::{R, Want};
use std::alloc::Global;

/// A clause, with the link to its parent's clause before it.
#[derive(Clone, Copy)]
pub struct Link {
    /// The position of the clause in the queue.
    pub position: u32,
    /// One more than the index of the parent's link before this one, or 0.
    pub previous: u32,
}

/// The clauses of each parent.
#[derive(Drop)]
pub struct ClausesByParent {
    links: Vec<Link>,
    /// One more than the index of the last link of each parent, by the parent's variable, or 0.
    last: Vec<u32>,
    ghost backward: { (k : ℕ) (l : Link) → slice_get links.items k ≡ Some l → l.previous ≤ k },
    ghost within: { (v : ℕ) → slice_index_or last.items v 0 ≤ length links.items },
}

impl ClausesByParent {
    /// No parent has a clause.
    pub fn new(alloc: Global) -> ClausesByParent
        ensures links { result.links.items ≡ [] }
        ensures last { result.last.items ≡ [] }
    {
        ClausesByParent {
            links: Vec::new(alloc),
            last: Vec::new(alloc),
        }
    }

    /// Adds the clause at this position to those of its parent.
    pub fn add(&mut self, parent: VariableId, position: usize) -> R<()>
        ensures added { OnOk result (IsLinked self.new.links.items
            (slice_index_or self.new.last.items parent.0 0) position) }
        ensures kept { (v i : ℕ)
            → IsLinked self.old.links.items (slice_index_or self.old.last.items v 0) i
            → IsLinked self.new.links.items (slice_index_or self.new.last.items v 0) i }
        ensures refusal { IsOkUnless result Memory }
    {
        let index = parent.0 as usize;
        make_place(&mut self.last, index)?;
        let position = as_number(position)?;
        let previous = self.last[index];
        let link = as_number(self.links.len() + 1)?;
        self.links.push(Link { position, previous })?;
        self.last[index] = link;
        Ok(())
    }

    /// One more than the index of the last link of a parent, or 0.
    pub fn last(&self, parent: VariableId) -> u32
        ensures { result ≡ slice_index_or self.now.last.items parent.0 0 }
    {
        let index = parent.0 as usize;
        if index < self.last.len() {
            self.last[index]
        } else {
            0
        }
    }

    /// The link with this index, which is given as one more; none for 0.
    pub fn link(&self, link: u32) -> Option<Link>
        ensures link { result ≡ link_at self.now.links.items link }
        ensures backward { IfSome result (λ l. l.previous < link) }
    {
        if link == 0 {
            return None;
        }
        self.links.get(link as usize - 1).copied()
    }
}

/// Adds parents without a clause, up to this one.
fn make_place(last: &mut Vec<u32>, index: usize) -> R<()>
    ensures long { OnOk result (index < length last.new.items) }
    ensures same { (v : ℕ)
        → slice_index_or last.new.items v 0 ≡ slice_index_or last.old.items v 0 }
    ensures refusal { IsOkUnless result Memory }
{
    while last.len() <= index {
        last.push(0)?;
    }
    Ok(())
}

/// A position or the number of a link, as a link has it.
fn as_number(count: usize) -> R<u32>
    ensures same { IfOk result (λ n. n ≡ count) }
    ensures refusal { IsOkUnless result Memory }
{
    match u32::try_from(count) {
        Ok(number) => Ok(number),
        Err(_) => Err(Want::Memory),
    }
}
