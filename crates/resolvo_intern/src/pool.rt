//! Names, strings, solvables, version sets, unions and conditions, numbered as they are interned.
//! The model is one list of each, in the order of first interning. Providers keep their ids in a
//! pool; equal names, strings, version sets and conditions have one id.
ghost use Rattle.std.specs.Prelude.{◌≡◌, ◌<◌, ◌≤◌, ◌++◌, ◌∷◌, [], IfOk, OnOk, OnErr, IsErrOf, IsOkUnless, length, slice_get, Some, None, bytes_eq, nat_lt};
ghost use Rattle.std.specs.Option.{option_map};
ghost use Rattle.std.specs.String.{string_bytes};
ghost use Rattle.std.specs.List.{position, position_or_len};
ghost use Rattle.indexmap.specs.IndexSet.{insert_key};
ghost use Rattle.resolvo_pool_core.specs.declared.want.Want.TheVariants.{Ids, Memory};
ghost use Rattle.resolvo_pool_core.specs.Provider.{OperandsBelow};

use indexmap::IndexSet;
use resolvo_pool_core::arena::{Arena, ArenaIter};
use resolvo_pool_core::condition::Condition;
use resolvo_pool_core::display_name::PackageNames;
use resolvo_pool_core::id::{
    ConditionId, DenseIndex, NameId, SolvableId, StringId, VersionSetId, VersionSetUnionId,
    next_index,
};
use resolvo_pool_core::want::R;
use std::alloc::Global;
use std::hash::Hash;
use std::marker::Model;

/// A set of versions of one package.
pub trait VersionSet: Clone + Eq + Hash {
    /// A version.
    type V;
}

/// A name of a package.
pub trait PackageName: Eq + Hash {}

impl<N: Eq + Hash> PackageName for N {}

/// The source of a package name.
pub trait IntoPackageName<N: PackageName> {
    /// Which names it may be converted to.
    ghost gives: { Self → N → Type 0 };

    /// The name.
    fn into_owned(self, alloc: Global) -> R<N>
        ensures name { IfOk result (gives self) }
        ensures refusal { IsOkUnless result Memory };
}

impl<N: PackageName> IntoPackageName<N> for N {
    ghost gives = { λ x n. n ≡ x };

    fn into_owned(self, _alloc: Global) -> R<N> {
        Ok(self)
    }
}

impl IntoPackageName<String> for &str {
    ghost gives = { λ s n. string_bytes n ≡ s.now };

    fn into_owned(self, alloc: Global) -> R<String> {
        Ok(String::from_str(alloc, self)?)
    }
}

/// One version of a package.
#[derive(Debug, Drop)]
pub struct Solvable<V> {
    pub version: V,
    pub name: NameId,
}

/// The interned values.
#[derive(Drop)]
pub struct Pool<VS: VersionSet, N: PackageName = String> {
    names: IndexSet<N>,
    strings: IndexSet<String>,
    solvables: Arena<SolvableId, Solvable<VS::V>>,
    version_sets: IndexSet<(NameId, VS)>,
    unions: Arena<VersionSetUnionId, Vec<VersionSetId>>,
    conditions: IndexSet<Condition>,
    alloc: Global,
}

impl<VS: VersionSet, N: PackageName> Model for Pool<VS, N> {
    ghost use Rattle.std.specs.Prelude.{◌≤◌, length, map};
    ghost use Rattle.std.specs.String.{string_bytes};
    ghost use Rattle.resolvo_intern.specs.Intern.{Interned, AreBelow};

    ghost Value = { Interned VS.V VS N };

    ghost view = { λ p.
        record {
          names = p.names.keys;
          strings = map string_bytes p.strings.keys;
          solvables = p.solvables;
          version_sets = p.version_sets.keys;
          unions = map (λ u. u.items) p.unions;
          conditions = p.conditions.keys;
        } };

    ghost invariant = { λ p.
        (length p.names.keys ≤ 4294967295)
        × (length p.strings.keys ≤ 4294967295)
        × (length p.version_sets.keys ≤ 4294967295)
        × (length p.conditions.keys ≤ 4294967295)
        × AreBelow p.conditions.keys };
}

impl<VS: VersionSet, N: PackageName> Pool<VS, N> {
    /// An empty pool.
    pub fn new(alloc: Global) -> Pool<VS, N>
        ensures { result
            ≡ record
            { names = []; strings = []; solvables = []; version_sets = []; unions = []; conditions = [] } }
    {
        Pool {
            names: IndexSet::new(alloc),
            strings: IndexSet::new(alloc),
            solvables: Arena::new(alloc),
            version_sets: IndexSet::new(alloc),
            unions: Arena::new(alloc),
            conditions: IndexSet::new(alloc),
            alloc,
        }
    }

    /// The id of a name, which is new where no equal name was interned.
    pub fn intern_package_name<Q: IntoPackageName<N>>(&mut self, name: Q) -> R<NameId>
    where
        N: Drop,
        ensures named { IfOk result
            (λ id.
            (n : N)
            × Q.gives name n
            × (id.raw ≡ position_or_len (N.eq n) self.old.names)
            × (self.new ≡ record self.old { names = insert_key N.eq self.old.names n })) }
        ensures err { OnErr result (self.new ≡ self.old) }
        ensures ids { IsErrOf result Ids → length self.old.names ≡ 4294967295 }
    {
        let name = name.into_owned(self.alloc)?;
        let index = index_of_new(&mut self.names, name)?;
        Ok(NameId::from_index(index))
    }

    /// Whether a name has this id.
    pub fn has_package_name(&self, id: NameId) -> bool
        ensures { result ≡ nat_lt id.raw (length self.now.names) }
    {
        id.to_index() < self.names.len()
    }

    /// The name of an id.
    pub fn resolve_package_name(&self, id: NameId) -> &N
        requires { id.raw < length self.now.names }
        ensures { slice_get self.now.names id.raw ≡ Some result.now }
    {
        match self.names.get_index(id.to_index()) {
            Some(name) => name,
            None => unreachable!(),
        }
    }

    /// The id of a name, if an equal one was interned.
    pub fn lookup_package_name(&self, name: &N) -> Option<NameId>
        ensures { option_map (λ id. id.raw) result ≡ position (N.eq name.now) self.now.names }
    {
        match self.names.get_index_of(name) {
            Some(index) => Some(NameId::from_index(index)),
            None => None,
        }
    }

    /// The id of a text, which is new where an equal one was not interned.
    pub fn intern_string(&mut self, text: &str) -> R<StringId>
        ensures id { IfOk result
            (λ id. id.0 ≡ position_or_len (bytes_eq text.now) self.old.strings) }
        ensures put { OnOk result
            (self.new
            ≡ record self.old { strings = insert_key bytes_eq self.old.strings text.now }) }
        ensures err { OnErr result (self.new ≡ self.old) }
        ensures ids { IsErrOf result Ids → length self.old.strings ≡ 4294967295 }
    {
        let text = String::from_str(self.alloc, text)?;
        let index = index_of_new(&mut self.strings, text)?;
        Ok(StringId::from_index(index))
    }

    /// Whether a text has this id.
    pub fn has_string(&self, id: StringId) -> bool
        ensures { result ≡ nat_lt id.0 (length self.now.strings) }
    {
        id.to_index() < self.strings.len()
    }

    /// The text of an id.
    pub fn resolve_string(&self, id: StringId) -> &str
        requires { id.0 < length self.now.strings }
        ensures { slice_get self.now.strings id.0 ≡ Some result.now }
    {
        match self.strings.get_index(id.to_index()) {
            Some(text) => text.as_str(),
            None => unreachable!(),
        }
    }

    /// A new solvable.
    pub fn intern_solvable(&mut self, name: NameId, version: VS::V) -> R<SolvableId>
    where
        VS::V: Drop,
        ensures id { IfOk result (λ id. id.raw ≡ length self.old.solvables) }
        ensures put { OnOk result
            (self.new
            ≡ record self.old
            { solvables = self.old.solvables ++ record { version = version; name = name } ∷ [] }) }
        ensures err { OnErr result (self.new ≡ self.old) }
        ensures ids { IsErrOf result Ids → length self.old.solvables ≡ 4294967295 }
    {
        self.solvables.alloc(Solvable { version, name })
    }

    /// Whether a solvable has this id.
    pub fn has_solvable(&self, id: SolvableId) -> bool
        ensures { result ≡ nat_lt id.raw (length self.now.solvables) }
    {
        id.to_index() < self.solvables.len()
    }

    /// The solvable of an id.
    pub fn resolve_solvable(&self, id: SolvableId) -> &Solvable<VS::V>
        requires { id.raw < length self.now.solvables }
        ensures { slice_get self.now.solvables id.raw ≡ Some result.now }
    {
        &self.solvables[id]
    }

    /// All solvables with their ids, in the order of the ids.
    pub fn iter_solvables(&self) -> ArenaIter<'_, SolvableId, Solvable<VS::V>>
        ensures rest { result.rest.now ≡ self.now.solvables }
        ensures next { result.next ≡ 0 }
    {
        self.solvables.iter()
    }

    /// The id of a package's version set, which is new where an equal one of it was not interned.
    pub fn intern_version_set(&mut self, name: NameId, version_set: VS) -> R<VersionSetId>
    where
        VS: Drop,
        ensures id { IfOk result
            (λ id.
            id.0
            ≡ position_or_len (⟦<(NameId, VS) as PartialEq>⟧.eq (name, version_set))
            self.old.version_sets) }
        ensures put { OnOk result
            (self.new
            ≡ record self.old {
              version_sets = insert_key ⟦<(NameId, VS) as PartialEq>⟧.eq self.old.version_sets
                  (name, version_set);
            }) }
        ensures err { OnErr result (self.new ≡ self.old) }
        ensures ids { IsErrOf result Ids → length self.old.version_sets ≡ 4294967295 }
    {
        let index = index_of_new(&mut self.version_sets, (name, version_set))?;
        Ok(VersionSetId::from_index(index))
    }

    /// Whether a version set has this id.
    pub fn has_version_set(&self, id: VersionSetId) -> bool
        ensures { result ≡ nat_lt id.0 (length self.now.version_sets) }
    {
        id.to_index() < self.version_sets.len()
    }

    /// The version set of an id.
    pub fn resolve_version_set(&self, id: VersionSetId) -> &VS
        requires { id.0 < length self.now.version_sets }
        ensures { option_map (λ p. p.1) (slice_get self.now.version_sets id.0) ≡ Some result.now }
    {
        match self.version_sets.get_index(id.to_index()) {
            Some(named) => &named.1,
            None => unreachable!(),
        }
    }

    /// The package of a version set.
    pub fn resolve_version_set_package_name(&self, id: VersionSetId) -> NameId
        requires { id.0 < length self.now.version_sets }
        ensures { option_map (λ p. p.0) (slice_get self.now.version_sets id.0) ≡ Some result }
    {
        match self.version_sets.get_index(id.to_index()) {
            Some(named) => named.0,
            None => unreachable!(),
        }
    }

    /// A new union of version sets.
    pub fn intern_version_set_union(
        &mut self,
        first: VersionSetId,
        others: &[VersionSetId],
    ) -> R<VersionSetUnionId>
        ensures id { IfOk result (λ id. id.0 ≡ length self.old.unions) }
        ensures put { OnOk result
            (self.new ≡ record self.old { unions = self.old.unions ++ (first ∷ others.now) ∷ [] }) }
        ensures err { OnErr result (self.new ≡ self.old) }
        ensures ids { IsErrOf result Ids → length self.old.unions ≡ 4294967295 }
    {
        let mut members = Vec::new(self.alloc);
        members.push(first)?;
        members.extend_from_slice(others)?;
        self.unions.alloc(members)
    }

    /// Whether a union has this id.
    pub fn has_version_set_union(&self, id: VersionSetUnionId) -> bool
        ensures { result ≡ nat_lt id.0 (length self.now.unions) }
    {
        id.to_index() < self.unions.len()
    }

    /// The version sets of a union, in order.
    pub fn resolve_version_set_union(&self, id: VersionSetUnionId) -> &[VersionSetId]
        requires { id.0 < length self.now.unions }
        ensures { slice_get self.now.unions id.0 ≡ Some result.now }
    {
        self.unions[id].as_slice()
    }

    /// The id of a condition, which is new where an equal one was not interned.
    pub fn intern_condition(&mut self, condition: Condition) -> R<ConditionId>
        requires { OperandsBelow condition (record { 0 = length self.old.conditions }) }
        ensures id { IfOk result
            (λ id.
            id.0
            ≡ position_or_len (⟦<Condition as PartialEq>⟧.eq condition) self.old.conditions) }
        ensures put { OnOk result
            (self.new
            ≡ record self.old
            { conditions = insert_key ⟦<Condition as PartialEq>⟧.eq self.old.conditions condition }) }
        ensures err { OnErr result (self.new ≡ self.old) }
        ensures ids { IsErrOf result Ids → length self.old.conditions ≡ 4294967295 }
    {
        let index = index_of_new(&mut self.conditions, condition)?;
        Ok(ConditionId::from_index(index))
    }

    /// Whether a condition has this id.
    pub fn has_condition(&self, id: ConditionId) -> bool
        ensures { result ≡ nat_lt id.0 (length self.now.conditions) }
    {
        id.to_index() < self.conditions.len()
    }

    /// The condition of an id.
    pub fn resolve_condition(&self, id: ConditionId) -> Condition
        requires { id.0 < length self.now.conditions }
        ensures condition { slice_get self.now.conditions id.0 ≡ Some result }
        ensures below { OperandsBelow result id }
    {
        match self.conditions.get_index(id.to_index()) {
            Some(condition) => *condition,
            None => unreachable!(),
        }
    }
}

/// The index of the key that is equal to `key`; where there is none, `key` is appended.
fn index_of_new<K: Eq + Hash>(keys: &mut IndexSet<K>, key: K) -> R<usize>
where
    K: Drop,
    requires few { length keys.old.keys ≤ 4294967295 }
    // After an answer.
    ensures index { IfOk result (λ i. i ≡ position_or_len (K.eq key) keys.old.keys) }
    ensures put { OnOk result (keys.new.keys ≡ insert_key K.eq keys.old.keys key) }
    ensures bounded { IfOk result (λ i. i < 4294967295) }
    // Whatever the answer.
    ensures few { length keys.new.keys ≤ 4294967295 }
    // After a refusal.
    ensures err { OnErr result (keys.new.keys ≡ keys.old.keys) }
    ensures ids { IsErrOf result Ids → length keys.old.keys ≡ 4294967295 }
{
    if let Some(index) = keys.get_index_of(&key) {
        return Ok(index);
    }
    next_index(keys.len())?;
    let (index, _) = keys.insert_full(key)?;
    Ok(index)
}

impl<VS: VersionSet, N: PackageName> PackageNames for Pool<VS, N> {
    type Name = N;

    ghost names_in = { λ p. p.names };

    fn name_of(&self, id: NameId) -> &N {
        self.resolve_package_name(id)
    }
}
