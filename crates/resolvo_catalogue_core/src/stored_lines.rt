//! Lines in the form in which a catalogue stores them: eight bytes each. The model is the list of
//! the stored lines. Used by `line_table`.

ghost use Rattle.std.specs.Prelude.{◌≡◌, ◌<◌, ◌≤◌, ◌++◌, ◌∷◌, [], if◌then◌else◌, is_ok, length, slice_get, IfOk, OnErr};
ghost use Rattle.resolvo_catalogue_core.specs.Packed.{line_by, owner_at, unpacked};

use crate::rule::VersionNo;
use resolvo_pool_core::id::{VersionSetId, VersionSetUnionId};
use std::alloc::{AllocError, Global};
use std::marker::Model;

/// The stored form of a line. A need without condition and a limit are stored whole; of another rule
/// its place among the rules, of a marked package that of its name.
#[derive(Clone, Copy, Debug)]
pub enum StoredLine {
    Nothing,
    Listed(VersionNo),
    Favour(VersionNo),
    Many(u32),
    Need {
        owner: VersionNo,
        spec: VersionSetId,
    },
    /// A need of one of several SPECs.
    AnyOf {
        owner: VersionNo,
        union: VersionSetUnionId,
    },
    Limit {
        owner: VersionNo,
        spec: VersionSetId,
    },
    Rule(u32),
}

/// A stored line as two numbers.
#[derive(Clone, Copy, Debug)]
pub struct PackedLine {
    /// The kind in the lowest three bits, and the owner above them.
    word: u32,
    /// The number of what the line speaks of.
    number: u32,
}

/// The stored line of a kind: 0 is nothing, 1 a version, 2 a favour, 3 a mark, 4 a need of one SPEC, 5
/// one of several, 6 a limit, 7 another rule.
#[inline(always)]
fn line_by(kind: u32, owner: VersionNo, number: u32) -> StoredLine
    ensures { result ≡ line_by kind owner number }
{
    if kind == 4 {
        StoredLine::Need {
            owner,
            spec: VersionSetId(number),
        }
    } else if kind == 5 {
        StoredLine::AnyOf {
            owner,
            union: VersionSetUnionId(number),
        }
    } else if kind == 6 {
        StoredLine::Limit {
            owner,
            spec: VersionSetId(number),
        }
    } else if kind == 7 {
        StoredLine::Rule(number)
    } else if kind == 3 {
        StoredLine::Many(number)
    } else if kind == 2 {
        StoredLine::Favour(VersionNo(number))
    } else if kind == 1 {
        StoredLine::Listed(VersionNo(number))
    } else {
        StoredLine::Nothing
    }
}

/// A line of this kind and owner as two numbers. An owner that has no room beside the kind is
/// refused as for want of memory: a text that may be read has too few lines for one.
#[inline(always)]
#[tactic(auto, using(crate::proofs::PackedLemmas::owned_line))]
fn packed_with(owner: VersionNo, kind: u32, number: u32) -> Result<PackedLine, AllocError>
    requires { kind < 8 }
    ensures packed { IfOk result (λ p. unpacked p ≡ line_by kind owner number) }
    ensures full { OnErr result (536870912 ≤ owner.0) }
{
    if owner.0 >= 536_870_912 {
        return Err(AllocError);
    }
    Ok(PackedLine {
        word: owner.0 * 8 + kind,
        number,
    })
}

impl StoredLine {
    /// The line as two numbers.
    #[inline(always)]
    fn pack(self) -> Result<PackedLine, AllocError>
        ensures { IfOk result (λ p. unpacked p ≡ self) }
    {
        match self {
            StoredLine::Nothing => Ok(PackedLine { word: 0, number: 0 }),
            StoredLine::Listed(version) => Ok(PackedLine {
                word: 1,
                number: version.0,
            }),
            StoredLine::Favour(version) => Ok(PackedLine {
                word: 2,
                number: version.0,
            }),
            StoredLine::Many(place) => Ok(PackedLine {
                word: 3,
                number: place,
            }),
            StoredLine::Need { owner, spec } => packed_with(owner, 4, spec.0),
            StoredLine::AnyOf { owner, union } => packed_with(owner, 5, union.0),
            StoredLine::Limit { owner, spec } => packed_with(owner, 6, spec.0),
            StoredLine::Rule(place) => Ok(PackedLine {
                word: 7,
                number: place,
            }),
        }
    }
}

impl PackedLine {
    /// The line of these numbers.
    #[inline(always)]
    fn unpack(self) -> StoredLine
        ensures { result ≡ unpacked self }
    {
        line_by(self.word % 8, VersionNo(self.word / 8), self.number)
    }
}

/// The lines of a catalogue, in their order.
#[derive(Drop)]
pub struct StoredLines {
    packed: Vec<PackedLine>,
}

impl Model for StoredLines {
    ghost use Rattle.std.specs.Prelude.{List, map};
    ghost use Rattle.resolvo_catalogue_core.specs.Packed.{unpacked};
    ghost use Rattle.resolvo_catalogue_core.specs.declared.stored_lines.StoredLine.{StoredLine};

    ghost Value = { List StoredLine };

    ghost view = { λ l. map unpacked l.packed.items };
}

impl StoredLines {
    /// No lines.
    pub fn new(alloc: Global) -> Self
        ensures { result ≡ [] }
    {
        StoredLines {
            packed: Vec::new(alloc),
        }
    }

    /// How many lines there are.
    pub fn len(&self) -> usize
        ensures { result ≡ length self.now }
    {
        self.packed.len()
    }

    /// Adds a line.
    #[inline(always)]
    pub fn push(&mut self, line: StoredLine) -> Result<(), AllocError>
        ensures items { self.new ≡ (if is_ok result then self.old ++ line ∷ [] else self.old) }
    {
        let packed = line.pack()?;
        self.packed.reserve(1)?;
        self.packed.push_reserved(packed);
        Ok(())
    }

    /// The line at an index, if there is one.
    pub fn get(&self, index: usize) -> Option<StoredLine>
        ensures { result ≡ slice_get self.now index }
    {
        match self.packed.get(index) {
            Some(packed) => Some(packed.unpack()),
            None => None,
        }
    }
}
