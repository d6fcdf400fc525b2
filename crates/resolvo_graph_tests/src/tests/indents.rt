//! The signs of a few levels.

use super::sample::text_of;
use resolvo_graph::{ChildOrder, Indenter};
use resolvo_pool::R;
use std::alloc::Global;
use std::process::Abort;
use std::test::Fail;

const MORE: ChildOrder = ChildOrder::HasRemainingSiblings;

const LAST: ChildOrder = ChildOrder::Last;

/// Levels, with the top one or without it, and their signs.
struct Row {
    top_level_indent: bool,
    levels: &'static [ChildOrder],
    signs: &'static str,
}

static ROWS: [Row; 3] = [
    Row {
        top_level_indent: true,
        levels: &[LAST, MORE, LAST, LAST, MORE],
        signs: "   │        ├─ ",
    },
    Row {
        top_level_indent: false,
        levels: &[LAST, LAST],
        signs: "└─ ",
    },
    Row {
        top_level_indent: false,
        levels: &[LAST],
        signs: "",
    },
];

fn push_levels(alloc: Global, indenter: &mut Indenter, levels: &[ChildOrder]) -> R<()> {
    for level in levels {
        *indenter = indenter.push_level(alloc, *level)?;
    }
    Ok(())
}

fn indent(alloc: Global, row: &Row) -> R<String> {
    let mut indenter = Indenter::new(alloc, row.top_level_indent);
    push_levels(alloc, &mut indenter, row.levels)?;
    text_of(alloc, &indenter)
}

fn have_signs(rt: &impl Abort, alloc: Global, rows: &[Row]) -> Result<(), Fail> {
    for row in rows {
        assert_eq!(rt; indent(alloc, row)?.as_str(), row.signs);
    }
    Ok(())
}

#[test]
fn rows(rt: HostRuntime) -> Result<(), Fail> {
    have_signs(&rt, rt.alloc(), &ROWS)
}
