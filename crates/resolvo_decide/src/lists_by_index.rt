//! Lists that are kept by an index.
ghost use Rattle.std.specs.Prelude.{◌≡◌, ℕ, ◌≤◌, length, slice_get, OnOk, IsOkUnless};
ghost use Rattle.resolvo_pool_core.specs.declared.want.Want.TheVariants.{Memory};
ghost use Rattle.resolvo_store_core.specs.Lists.{items_or_none};

use resolvo_pool_core::want::R;
use std::alloc::Global;

/// Adds empty lists, up to this number of lists.
pub fn make_room<T: Drop>(lists: &mut Vec<Vec<T>>, alloc: Global, count: usize) -> R<()>
    ensures long { OnOk result (count ≤ length lists.new.items) }
    ensures same { (v : ℕ)
        → items_or_none (slice_get lists.new.items v)
        ≡ items_or_none (slice_get lists.old.items v) }
    ensures refusal { IsOkUnless result Memory }
{
    while lists.len() < count {
        lists.push(Vec::new(alloc))?;
    }
    Ok(())
}
