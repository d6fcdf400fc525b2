//! The lines that belong to each version, one list after the other. A line belongs to the last
//! version that was listed before it. The model is a list of lines for each version. Used by
//! `table`.

ghost use Rattle.std.specs.Prelude.{◌≡◌, ℕ, ◌+◌, ◌≤◌, [], ◌∷◌, ◌++◌, ◌==◌, if◌then◌else◌, length, OnOk};
ghost use Rattle.std.specs.List.{slice_range};
ghost use Rattle.resolvo_catalogue_core.specs.LinesByVersion.{begin_of, kept_of, lists_from, AreEnds};

use crate::rule::VersionNo;
use resolvo_terms::place_of;
use std::alloc::{AllocError, Global};
use std::marker::Model;

/// The lines of each version.
#[derive(Drop)]
pub struct LinesByVersion {
    lines: Vec<u32>,
    /// Where the lines of each version end. They begin where those of the version before end.
    ends: Vec<u32>,
}

/// Where the lines of a version begin.
fn begin_of(ends: &[u32], version: usize) -> usize
    requires { version ≤ length ends.now }
    ensures { result ≡ begin_of 0 ends.now version }
{
    if version == 0 {
        return 0;
    }
    ends[version - 1] as usize
}

/// The lines between two places.
fn part(lines: &[u32], begin: usize, end: usize) -> &[u32]
    requires rising { begin ≤ end }
    requires within { end ≤ length lines.now }
    ensures { result.now ≡ slice_range lines.now begin end }
{
    &lines[begin..end]
}

/// The lines of the version of this number; none where there is no such version.
fn lines_at<'a>(lines: &'a [u32], ends: &[u32], version: usize) -> &'a [u32]
    requires { AreEnds 0 ends.now (length lines.now) }
    ensures { result.now ≡ kept_of (lists_from lines.now 0 ends.now) version }
{
    if version >= ends.len() {
        return &[];
    }
    part(lines, begin_of(ends, version), ends[version] as usize)
}

impl Model for LinesByVersion {
    ghost use Rattle.std.specs.Prelude.{ℕ, List, length};
    ghost use Rattle.resolvo_catalogue_core.specs.LinesByVersion.{lists_from, AreEnds};

    ghost Value = { List (List ℕ) };

    ghost view = { λ b. lists_from b.lines.items 0 b.ends.items };

    ghost invariant = { λ b. AreEnds 0 b.ends.items (length b.lines.items) };
}

impl LinesByVersion {
    pub fn new(alloc: Global) -> Self
        ensures { result ≡ [] }
    {
        LinesByVersion {
            lines: Vec::new(alloc),
            ends: Vec::new(alloc),
        }
    }

    /// The lines of a version; none of a number that no version has.
    pub fn lines_of(&self, version: VersionNo) -> &[u32]
        ensures { result.now ≡ kept_of self.now version.0 }
    {
        lines_at(&self.lines, &self.ends, version.0 as usize)
    }

    /// Adds a version, without lines.
    pub fn add_version(&mut self) -> Result<(), AllocError>
        ensures { OnOk result (self.new ≡ self.old ++ [] ∷ []) }
    {
        let end = place_of(self.lines.len())?;
        self.ends.push(end)?;
        Ok(())
    }

    /// Adds a line to the version that was added last.
    pub fn add_line(&mut self, version: VersionNo, line: u32) -> Result<(), AllocError>
        requires { version.0 + 1 ≡ length self.old }
        ensures same { OnOk result (length self.new ≡ length self.old) }
        ensures added { OnOk result ((k : ℕ) → kept_of self.new k ≡
            (if version.0 == k then kept_of self.old k ++ line ∷ [] else kept_of self.old k)) }
    {
        let count = self.lines.len();
        if count >= 4_294_967_295 {
            return Err(AllocError);
        }
        self.lines.push(line)?;
        self.ends[version.0 as usize] = (count + 1) as u32;
        Ok(())
    }
}
