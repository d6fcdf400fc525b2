//! A set that keeps the order of insertion. A few values are searched one by one; more are also kept
//! in a hashed set. The model is the list of values.
ghost use Rattle.std.specs.Prelude.{◌≡◌, ◌++◌, ◌∷◌, [], length, IfOk, OnOk, OnErr, IsOkUnless};
ghost use Rattle.std.specs.HashSet.{contains};
ghost use Rattle.std.specs.List.{list_any};
ghost use Rattle.resolvo_pool_core.specs.declared.want.Want.TheVariants.{Memory};
ghost use Rattle.resolvo_store_core.specs.SmallSets.{Finds, IsTable};

use resolvo_pool_core::want::R;
use std::alloc::Global;
use std::collections::HashSet;
use std::hash::Hash;
use std::marker::Model;

/// Up to so many values are searched one by one.
const FEW: usize = 32;

/// Values in the order of insertion.
#[derive(Drop)]
pub(crate) struct SmallSet<V: Eq + Hash> {
    values: Vec<V>,
    /// The same values, once they are more than a few. Most sets stay small, so it isn't kept in
    /// place.
    table: Option<Box<HashSet<V>>>,
}

impl<V: Eq + Hash> Model for SmallSet<V> {
    ghost use Rattle.std.specs.Prelude.{List};
    ghost use Rattle.resolvo_store_core.specs.SmallSets.{IsTable};

    ghost Value = { List V };

    ghost view = { λ s. s.values.items };

    ghost invariant = { λ s. IsTable V.eq s.table s.values.items };
}

impl<V: Copy + Eq + Hash + Drop> SmallSet<V> {
    /// An empty set.
    pub(crate) fn new(alloc: Global) -> SmallSet<V>
        ensures { result ≡ [] }
    {
        SmallSet {
            values: Vec::new(alloc),
            table: None,
        }
    }

    /// The values, in the order of insertion.
    pub(crate) fn as_slice(&self) -> &[V]
        ensures { result.now ≡ self.now }
    {
        self.values.as_slice()
    }

    /// The number of values.
    pub(crate) fn len(&self) -> usize
        ensures { result ≡ length self.now }
    {
        self.values.len()
    }

    /// Whether a value is in it.
    pub(crate) fn contains(&self, value: V) -> bool
        ensures { result ≡ list_any (V.eq value) self.now }
    {
        match &self.table {
            None => self.values.iter().any(|one| value == *one),
            Some(table) => table.contains(&value),
        }
    }

    /// Appends a value that isn't in it.
    pub(crate) fn push(&mut self, value: V) -> R<()>
        ensures pushed { OnOk result (self.new ≡ self.old ++ value ∷ []) }
        ensures err { OnErr result (self.new ≡ self.old) }
        ensures refusal { IsOkUnless result Memory }
    {
        self.values.reserve(1)?;
        let alloc = *self.values.allocator();
        add_to(alloc, &mut self.table, self.values.as_slice(), value)?;
        self.values.push(value).unwrap();
        Ok(())
    }
}

/// Adds a value to the hashed set of these. Makes it, if they are more than a few with the value.
fn add_to<V: Copy + Eq + Hash + Drop>(
    alloc: Global,
    table: &mut Option<Box<HashSet<V>>>,
    values: &[V],
    value: V,
) -> R<()>
    requires { IsTable V.eq table.old values.now }
    ensures found { OnOk result (IsTable V.eq table.new (values.now ++ value ∷ [])) }
    ensures err { OnErr result (IsTable V.eq table.new values.now) }
    ensures refusal { IsOkUnless result Memory }
{
    match table {
        Some(table) => {
            table.insert(value)?;
        }
        None => {
            if values.len() >= FEW {
                let mut made = table_of(alloc, values)?;
                made.insert(value)?;
                *table = Some(Box::new(alloc, made)?);
            }
        }
    }
    Ok(())
}

/// These values as a hashed set.
fn table_of<V: Copy + Eq + Hash + Drop>(alloc: Global, values: &[V]) -> R<HashSet<V>>
    ensures same { IfOk result (λ t. Finds V.eq (contains V.eq t) values.now) }
    ensures refusal { IsOkUnless result Memory }
{
    let mut table = HashSet::new(alloc);
    for value in values {
        table.insert(*value)?;
    }
    Ok(table)
}
