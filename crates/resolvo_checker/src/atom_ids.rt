//! Numbers for keys, from 0 on.
//! The number of a version's key is noted in a slot of its own, since most literals are versions.

ghost use Rattle.std.specs.Prelude.{◌≡◌, ◌∷◌, List, ℕ, IfOk, IfSome, Some, None, []};
ghost use Rattle.std.specs.Global.{Vec};
ghost use Rattle.resolvo_checker.specs.Numbers.{number_in, AreNumbers, Keeps};
ghost use Rattle.resolvo_checker.specs.Noted.{AreNoted};

use std::alloc::{AllocError, Global};
use std::collections::BTreeMap;
use std::marker::Model;

/// The numbers of the keys so far.
#[derive(Drop)]
pub struct AtomIds {
    map: BTreeMap<Vec<usize>, usize>,
    /// The numbers of the keys of versions, by the numbers of the versions.
    versions: Vec<Option<usize>>,
}

impl Model for AtomIds {
    ghost use Rattle.std.specs.Prelude.{List, ℕ};
    ghost use Rattle.std.specs.Global.{Vec};
    ghost use Rattle.std.specs.BTreeMap.{btree_map_len};
    ghost use Rattle.resolvo_checker.specs.Numbers.{AreNumbers};
    ghost use Rattle.resolvo_checker.specs.Noted.{AreNoted};

    ghost Value = { List (Vec ℕ × ℕ) };

    ghost view = { λ n. n.map.entries };

    ghost invariant = { λ n. AreNumbers n.map.entries (btree_map_len n.map)
        × AreNoted n.map.entries n.versions.items };
}

/// Puts the number of the key of a version into the slot of the version.
fn put_number(
    versions: &mut Vec<Option<usize>>,
    version: usize,
    number: usize,
) -> Result<(), AllocError>
    ensures { (entries : List (Vec ℕ × ℕ))
        → number_in entries (0 ∷ version ∷ []) ≡ Some number
        → AreNoted entries versions.old.items
        → AreNoted entries versions.new.items }
{
    while versions.len() <= version {
        versions.push(None)?;
    }
    versions[version] = Some(number);
    Ok(())
}

impl AtomIds {
    pub fn new(alloc: Global) -> Self
        ensures { result ≡ [] }
    {
        AtomIds {
            map: BTreeMap::new(alloc),
            versions: Vec::new(alloc),
        }
    }

    /// How many keys have a number.
    pub fn count(&self) -> usize
        ensures { AreNumbers self.now result }
    {
        self.map.len()
    }

    /// The number of the key, if it has one.
    pub fn find(&self, key: &[usize]) -> Option<usize>
        ensures { result ≡ number_in self.now key.now }
    {
        self.map.get(key).copied()
    }

    /// Gives a new key the next number.
    fn add(&mut self, key: Vec<usize>) -> Result<usize, AllocError>
        requires { number_in self.old key.items ≡ None }
        ensures found { IfOk result (λ i. number_in self.new key.items ≡ Some i) }
        ensures keeps { Keeps self.old self.new }
    {
        let number = self.map.len();
        self.map.insert(key, number)?;
        Ok(number)
    }

    /// The number of the key, or the next one for a new key.
    pub fn number(&mut self, alloc: Global, key: &[usize]) -> Result<usize, AllocError>
        ensures found { IfOk result (λ i. number_in self.new key.now ≡ Some i) }
        ensures keeps { Keeps self.old self.new }
    {
        match self.find(key) {
            Some(number) => Ok(number),
            None => self.add(Vec::from_slice(alloc, key)?),
        }
    }

    /// The number of the key of a version, if it is noted.
    fn noted(&self, version: usize) -> Option<usize>
        ensures { IfSome result (λ i. number_in self.now (0 ∷ version ∷ []) ≡ Some i) }
    {
        match self.versions.get(version) {
            Some(number) => *number,
            None => None,
        }
    }

    /// Notes the number of the key of a version.
    fn note(&mut self, version: usize, number: usize) -> Result<(), AllocError>
        requires { number_in self.old (0 ∷ version ∷ []) ≡ Some number }
        ensures { self.new ≡ self.old }
    {
        put_number(&mut self.versions, version, number)
    }

    /// The number of the key of a version, or the next one for a new key.
    pub fn number_of_version(&mut self, alloc: Global, version: usize) -> Result<usize, AllocError>
        ensures found { IfOk result (λ i. number_in self.new (0 ∷ version ∷ []) ≡ Some i) }
        ensures keeps { Keeps self.old self.new }
    {
        if let Some(number) = self.noted(version) {
            return Ok(number);
        }
        let number = self.number(alloc, &[0, version])?;
        self.note(version, number)?;
        Ok(number)
    }
}
