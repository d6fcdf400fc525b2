//! Messages worked out by hand from the words of docs/MESSAGES.md. An edge is walked before those
//! that were drawn earlier.

use super::sample::{Link, Place, message_of};
use std::alloc::Global;
use std::process::Abort;
use std::test::Fail;

const ROOT: Place = Place::Root;

const NOTHING: Place = Place::Unresolved;

/// A drawing, and its message.
struct Row {
    title: &'static str,
    links: &'static [Link],
    message: &'static str,
}

static ROWS: [Row; 18] = [
    Row {
        title: "two needs that clash",
        links: &[
            Link::Needs(ROOT, 1_000_100, Place::Version(142)),
            Link::Needs(Place::Version(142), 3_000_054, Place::Version(353)),
            Link::Needs(ROOT, 3_054_100, Place::Version(354)),
            Link::Forbids(Place::Version(354), Place::Version(353)),
        ],
        message: "The following packages are incompatible\n├─ b 0..100 can be installed with any of the following options:\n│  └─ b 42 would require\n│     └─ s 0..54, which can be installed with any of the following options:\n│        └─ s 53\n└─ s 54..100 cannot be installed because there are no viable options:\n   └─ s 54, which conflicts with the versions reported above.\n",
    },
    Row {
        title: "merged versions miss a candidate",
        links: &[
            Link::Needs(ROOT, 0, Place::Version(2)),
            Link::Needs(ROOT, 0, Place::Version(1)),
            Link::Needs(Place::Version(2), 2_009_000, NOTHING),
            Link::Needs(Place::Version(1), 2_009_000, NOTHING),
        ],
        message: "a * cannot be installed because there are no viable options:\n└─ a 2 | 1 would require\n   └─ c 9, for which no candidates were found.\n",
    },
    Row {
        title: "versions that need each other",
        links: &[
            Link::Needs(ROOT, 0, Place::Version(1)),
            Link::Needs(Place::Version(1), 1_000_000, Place::Version(101)),
            Link::Needs(Place::Version(101), 0, Place::Version(1)),
        ],
        message: "The following packages are incompatible\n└─ a * cannot be installed because there are no viable options:\n   └─ a 1 would require\n      └─ b *, which cannot be installed because there are no viable options:\n         └─ b 1 would require\n            └─ a *, which cannot be installed because there are no viable options:\n",
    },
    Row {
        title: "an exclusion",
        links: &[
            Link::Needs(ROOT, 0, Place::Version(1)),
            Link::Excludes(Place::Version(1), Place::Word(0)),
        ],
        message: "The following packages are incompatible\n└─ a * cannot be installed because there are no viable options:\n   └─ a 1 is excluded because old\n",
    },
    Row {
        title: "a lock before the last edge",
        links: &[
            Link::Needs(ROOT, 2_000, Place::Version(2)),
            Link::Locks(1, Place::Version(2)),
        ],
        message: "The following packages are incompatible\n└─ a 2 can be installed with any of the following options:\n   └─ a 2\n├─ a 1 is locked, but another version is required as reported above\n",
    },
    Row {
        title: "a lock as the last edge",
        links: &[
            Link::Locks(1, Place::Version(2)),
            Link::Needs(ROOT, 2_000, Place::Version(2)),
        ],
        message: "The following packages are incompatible\n└─ a 2 can be installed with any of the following options:\n   └─ a 2\n└─ a 1 is locked, but another version is required as reported above\n",
    },
    Row {
        title: "a constraint of the problem",
        links: &[
            Link::Admits(ROOT, 9_000, Place::Version(1)),
            Link::Needs(ROOT, 0, Place::Version(1)),
        ],
        message: "The following packages are incompatible\n└─ a * can be installed with any of the following options:\n   └─ a 1\n└─ the constraint a 9 cannot be fulfilled\n",
    },
    Row {
        title: "a version that forbids itself",
        links: &[
            Link::Needs(ROOT, 0, Place::Version(1)),
            Link::Admits(Place::Version(1), 2_000, Place::Version(1)),
        ],
        message: "The following packages are incompatible\n└─ a * cannot be installed because there are no viable options:\n   └─ a 1 would constrain\n      └─ a 2, which conflicts with any installable versions previously reported\n",
    },
    Row {
        title: "constraints alike that are neighbours",
        links: &[
            Link::Needs(ROOT, 0, Place::Version(1)),
            Link::Admits(Place::Version(1), 1_001_003, Place::Version(105)),
            Link::Admits(Place::Version(1), 1_001_003, Place::Version(106)),
            Link::Admits(Place::Version(1), 2_002_000, Place::Version(201)),
            Link::Admits(Place::Version(1), 1_001_003, Place::Version(107)),
        ],
        message: "The following packages are incompatible\n└─ a * cannot be installed because there are no viable options:\n   └─ a 1 would constrain\n      ├─ b 1..3, which conflicts with any installable versions previously reported\n      ├─ c 2, which conflicts with any installable versions previously reported\n      └─ b 1..3, which conflicts with any installable versions previously reported\n",
    },
    Row {
        title: "merged versions at two places",
        links: &[
            Link::Needs(ROOT, 0, Place::Version(2)),
            Link::Needs(ROOT, 0, Place::Version(1)),
            Link::Needs(ROOT, 1_000_000, Place::Version(101)),
            Link::Needs(Place::Version(101), 0, Place::Version(2)),
            Link::Needs(Place::Version(101), 0, Place::Version(1)),
            Link::Needs(Place::Version(2), 2_009_000, NOTHING),
            Link::Needs(Place::Version(1), 2_009_000, NOTHING),
        ],
        message: "a * cannot be installed because there are no viable options:\n└─ a 2 | 1 would require\n   └─ c 9, for which no candidates were found.\nb * cannot be installed because there are no viable options:\n└─ b 1 would require\n   └─ a *, which cannot be installed because there are no viable options:\n",
    },
    Row {
        title: "a single version at two places",
        links: &[
            Link::Needs(ROOT, 0, Place::Version(1)),
            Link::Needs(ROOT, 1_000_000, Place::Version(101)),
            Link::Needs(Place::Version(101), 0, Place::Version(1)),
            Link::Excludes(Place::Version(1), Place::Word(0)),
        ],
        message: "The following packages are incompatible\n├─ a * cannot be installed because there are no viable options:\n│  └─ a 1 is excluded because old\n└─ b * cannot be installed because there are no viable options:\n   └─ b 1 would require\n      └─ a *, which cannot be installed because there are no viable options:\n         └─ a 1 is excluded because old\n",
    },
    Row {
        title: "what is missing beside what can be installed",
        links: &[
            Link::Needs(ROOT, 0, Place::Version(2)),
            Link::Needs(ROOT, 0, Place::Version(1)),
            Link::Needs(ROOT, 4_000_000, NOTHING),
            Link::Forbids(Place::Version(2), Place::Version(1)),
        ],
        message: "No candidates were found for w *.\nThe following packages are incompatible\n└─ a * can be installed with any of the following options:\n   └─ a 1\n",
    },
    Row {
        title: "a cycle through merged versions",
        links: &[
            Link::Needs(ROOT, 0, Place::Version(2)),
            Link::Needs(ROOT, 0, Place::Version(1)),
            Link::Needs(Place::Version(2), 1_000_000, Place::Version(101)),
            Link::Needs(Place::Version(1), 1_000_000, Place::Version(101)),
            Link::Needs(Place::Version(101), 0, Place::Version(2)),
            Link::Needs(Place::Version(101), 0, Place::Version(1)),
        ],
        message: "The following packages are incompatible\n└─ a * cannot be installed because there are no viable options:\n   └─ a 2 | 1 would require\n      └─ b *, which cannot be installed because there are no viable options:\n         └─ b 1 would require\n            └─ a *, which cannot be installed because there are no viable options:\n",
    },
    Row {
        title: "a union",
        links: &[
            Link::NeedsEither(ROOT, Place::Version(101)),
            Link::NeedsEither(ROOT, Place::Version(203)),
            Link::Excludes(Place::Version(101), Place::Word(1)),
            Link::Excludes(Place::Version(203), Place::Word(0)),
        ],
        message: "The following packages are incompatible\n└─ b * | c 3 cannot be installed because there are no viable options:\n   ├─ b 1 is excluded because broken\n   └─ c 3 is excluded because old\n",
    },
    Row {
        title: "two packages are not merged",
        links: &[
            Link::NeedsEither(ROOT, Place::Version(101)),
            Link::NeedsEither(ROOT, Place::Version(201)),
            Link::Needs(Place::Version(101), 0, NOTHING),
            Link::Needs(Place::Version(201), 0, NOTHING),
        ],
        message: "b * | c 3 cannot be installed because there are no viable options:\n├─ b 1 would require\n│  └─ a *, for which no candidates were found.\n└─ c 1 would require\n   └─ a *, for which no candidates were found.\n",
    },
    Row {
        title: "several edges to nothing",
        links: &[Link::Needs(ROOT, 0, NOTHING), Link::Needs(ROOT, 0, NOTHING)],
        message: "a * cannot be installed because there are no viable options:\n",
    },
    Row {
        title: "installable comes first",
        links: &[
            Link::Needs(ROOT, 0, Place::Version(1)),
            Link::Needs(Place::Version(1), 2_000_000, Place::Version(201)),
            Link::Needs(Place::Version(1), 1_000_000, Place::Version(101)),
            Link::Excludes(Place::Version(201), Place::Word(0)),
        ],
        message: "The following packages are incompatible\n└─ a * cannot be installed because there are no viable options:\n   └─ a 1 would require\n      ├─ b *, which can be installed with any of the following options:\n      │  └─ b 1\n      └─ c *, which cannot be installed because there are no viable options:\n         └─ c 1 is excluded because old\n",
    },
    Row {
        title: "not installable comes last",
        links: &[
            Link::Needs(ROOT, 0, Place::Version(1)),
            Link::Needs(Place::Version(1), 1_000_000, Place::Version(101)),
            Link::Needs(Place::Version(1), 2_000_000, Place::Version(201)),
            Link::Excludes(Place::Version(201), Place::Word(0)),
        ],
        message: "The following packages are incompatible\n└─ a * cannot be installed because there are no viable options:\n   └─ a 1 would require\n      ├─ b *, which can be installed with any of the following options:\n      │  └─ b 1\n      └─ c *, which cannot be installed because there are no viable options:\n         └─ c 1 is excluded because old\n",
    },
];

/// Each drawing has its message.
fn have_messages(rt: &impl Abort, alloc: Global, rows: &[Row]) -> Result<(), Fail> {
    for row in rows {
        let shown = message_of(alloc, row.links)?;
        assert_eq!(rt; shown.as_str(), row.message, "{}", row.title);
    }
    Ok(())
}

#[test]
fn rows(rt: HostRuntime) -> Result<(), Fail> {
    have_messages(&rt, rt.alloc(), &ROWS)
}
