//! Entries of a report, why they are listed, wishes that are left out, and the turns of a search.
//! The search's caller makes turns; `install_order` makes the answers.

use resolvo_catalogue_core::VersionNo;

/// Why a version is listed.
#[derive(Clone, Copy)]
pub enum Reason {
    /// A need in a line of the request.
    ForRequest { line: u32 },
    /// A need in a line of the catalogue, which belongs to an entry above.
    ForVersion { version: VersionNo, line: u32 },
    /// A wish in a line of the request.
    Wished { line: u32 },
}

/// A version that is listed, and why.
#[derive(Clone, Copy)]
pub struct Entry {
    pub version: VersionNo,
    pub reason: Reason,
}

/// A line of the report: an entry, or a wish of this line of the request that is left out, since
/// the step forbids it.
#[derive(Clone, Copy)]
pub enum Answer {
    Entry(Entry),
    LeftOut {
        version: VersionNo,
        line: u32,
        step: u32,
    },
}

/// A turn of a search. A wish is named by its line of the request.
#[derive(Clone, Copy)]
pub enum Turn<'a> {
    /// The needs of the request, or an accepted wish: the versions that were chosen besides those
    /// of the turns before.
    Chose {
        wish: Option<(u32, VersionNo)>,
        chosen: &'a [VersionNo],
    },
    /// A wish that is left out. The step of the report, from 1, forbids it.
    LeftOut {
        wish: (u32, VersionNo),
        step: u32,
    },
}
