//! Sets that keep the order of insertion.
ghost use Rattle.std.specs.Prelude.{OnOk, IsOkUnless};
ghost use Rattle.resolvo_pool_core.specs.declared.want.Want.TheVariants.{Memory};
ghost use Rattle.resolvo_state.specs.Keys.{Includes};

use indexmap::IndexSet;
use resolvo_pool_core::id::Exact;
use resolvo_pool_core::want::R;
use std::hash::Hash;

/// Appends a value, unless the set contains it.
pub(crate) fn include<K: Exact + Hash + Drop>(keys: &mut IndexSet<K>, key: K) -> R<()>
    ensures included { OnOk result (Includes keys.old.keys keys.new.keys key) }
    ensures refusal { IsOkUnless result Memory }
{
    keys.insert(key)?;
    Ok(())
}
