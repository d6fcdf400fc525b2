//! The report of turns that are chosen here, and not by the solver: the order of the lines, and
//! that of the steps.

use resolve_install::{install_text, numbers_of};
use resolve_order::Turn;
use resolvo_catalogue::{Catalogue, MemorySource, ReadFault, Request, Version, VersionNo};
use resolvo_judge::{Step, Verdict, judge};
use resolvo_pool::SolvableId;
use std::alloc::{AllocError, Global};
use std::test::Fail;

/// A turn of a row. It has the place of its wish among those of the request, and the numbers of the
/// versions that it chose; or the place of a wish that is left out, and its step.
enum RowTurn {
    Chose(Option<usize>, &'static [u32]),
    LeftOut(usize, u32),
}

/// A step of a row: the line of a lock, and the version that it forbids.
struct Lock {
    line: u32,
    name: &'static str,
    number: u32,
}

/// Two texts, the turns of a search in their order, the steps, and the report.
struct Row {
    catalogue: &'static str,
    request: &'static str,
    turns: &'static [RowTurn],
    steps: &'static [Lock],
    report: &'static str,
}

/// Wishes that were chosen and wishes that are left out, whose steps are in another order.
static WISHES: Row = Row {
    catalogue: "version a 1\nversion a 2\nlock a 1\nversion b 1\nversion b 2\nlock b 2\nversion c 1\nneeds b\n",
    request: "wish a 2\nneeds a\nwish c 1\nwish b 1\n",
    turns: &[
        RowTurn::Chose(None, &[0]),
        RowTurn::LeftOut(0, 2),
        RowTurn::Chose(Some(1), &[4, 3]),
        RowTurn::LeftOut(2, 1),
    ],
    steps: &[
        Lock {
            line: 6,
            name: "b",
            number: 1,
        },
        Lock {
            line: 3,
            name: "a",
            number: 2,
        },
    ],
    report: "install\na=1 for request line 2\nleft out a=2 line 1 by 2\nc=1 wished line 3\nb=2 for c=1 line 8\nleft out b=1 line 4 by 1\nstep 1 lock line 6 bars b=1\nstep 2 lock line 3 bars a=2\n",
};

/// A cycle of needs, an alternative that isn't chosen, and a line with two matches.
static MARKET: Row = Row {
    catalogue: "version a 1\nneeds c | b\nlimits b\nneeds d\nversion b 1\nneeds d | a\nneeds e 2 | c\nversion c 1\nversion d 1\nneeds a\nversion e 1\nversion e 2\nneeds f if c\nversion f 1\n",
    request: "#\nneeds b\nneeds a 1\n",
    turns: &[RowTurn::Chose(None, &[5, 3, 2, 1, 0, 6])],
    steps: &[],
    report: "install\nb=1 for request line 2\na=1 for request line 3\nd=1 for b=1 line 6\ne=2 for b=1 line 7\nc=1 for b=1 line 7\nf=1 for e=2 line 13\n",
};

/// Lines that wait for their conditions.
static WAITING: Row = Row {
    catalogue: "version a 1\nneeds b\nneeds e\nversion b 1\nversion c 1\nversion d 1\nversion e 1\n",
    request: "needs c | d if b\nneeds e if c\nneeds a\n",
    turns: &[RowTurn::Chose(None, &[0, 1, 2, 3, 4])],
    steps: &[],
    report: "install\na=1 for request line 3\nb=1 for a=1 line 2\nc=1 for request line 1\nd=1 for request line 1\ne=1 for request line 2\n",
};

fn solvables(alloc: Global, numbers: &[u32]) -> Result<Vec<SolvableId>, AllocError> {
    let mut solvables = Vec::new(alloc);
    for number in numbers {
        solvables.push(SolvableId::from_raw(*number))?;
    }
    Ok(solvables)
}

/// The versions that a turn chose.
fn chosen_by(alloc: Global, turn: &RowTurn) -> Result<Vec<VersionNo>, AllocError> {
    match turn {
        RowTurn::Chose(_, chosen) => numbers_of(alloc, &solvables(alloc, chosen)?),
        RowTurn::LeftOut(_, _) => Ok(Vec::new(alloc)),
    }
}

fn chosen_of(alloc: Global, outcome: &[RowTurn]) -> Result<Vec<Vec<VersionNo>>, AllocError> {
    let mut chosen = Vec::new(alloc);
    for turn in outcome {
        chosen.push(chosen_by(alloc, turn)?)?;
    }
    Ok(chosen)
}

/// The turn of a row. A wish that the request doesn't have is passed over.
fn turn_of<'a>(request: &Request, turn: &RowTurn, chosen: &'a [VersionNo]) -> Option<Turn<'a>> {
    match turn {
        RowTurn::Chose(None, _) => Some(Turn::Chose { wish: None, chosen }),
        RowTurn::Chose(Some(wish), _) => Some(Turn::Chose {
            wish: Some(*request.wishes().get(*wish)?),
            chosen,
        }),
        RowTurn::LeftOut(wish, step) => Some(Turn::LeftOut {
            wish: *request.wishes().get(*wish)?,
            step: *step,
        }),
    }
}

fn add_turns<'a>(
    turns: &mut Vec<Turn<'a>>,
    request: &Request,
    outcome: &[RowTurn],
    chosen: &'a [Vec<VersionNo>],
) -> Result<(), AllocError> {
    for (turn, chosen) in outcome.iter().zip(chosen) {
        if let Some(turn) = turn_of(request, turn, chosen) {
            turns.push(turn)?;
        }
    }
    Ok(())
}

fn steps_of(alloc: Global, locks: &[Lock]) -> Result<Vec<Step>, AllocError> {
    let mut steps = Vec::new(alloc);
    for lock in locks {
        let mut name = String::new(alloc);
        name.push_str(lock.name)?;
        steps.push(Step::Lock {
            line: lock.line,
            version: Version {
                name,
                number: lock.number,
            },
        })?;
    }
    Ok(steps)
}

fn catalogue_of(alloc: Global, text: &str) -> Result<Catalogue, ReadFault> {
    Catalogue::read(alloc, &mut MemorySource::new(text.as_bytes(), 4096))
}

fn request_of(alloc: Global, text: &str, catalogue: &Catalogue) -> Result<Request, ReadFault> {
    Request::read(
        alloc,
        &mut MemorySource::new(text.as_bytes(), 4096),
        catalogue,
    )
}

/// The text of a row's report, whose turns chose these versions.
fn text_with(
    alloc: Global,
    catalogue: &Catalogue,
    request: &Request,
    row: &Row,
    chosen: &[Vec<VersionNo>],
) -> Result<Vec<u8>, AllocError> {
    let mut turns = Vec::new(alloc);
    add_turns(&mut turns, request, row.turns, chosen)?;
    let steps = steps_of(alloc, row.steps)?;
    install_text(alloc, catalogue, request, &turns, &steps)
}

/// The text of a row's report.
fn text_of(
    alloc: Global,
    catalogue: &Catalogue,
    request: &Request,
    row: &Row,
) -> Result<Vec<u8>, Fail> {
    let chosen = chosen_of(alloc, row.turns)?;
    Ok(text_with(alloc, catalogue, request, row, &chosen)?)
}

/// Whether the report has the row's text, and the judge's verdict on it.
fn outcome_over(
    alloc: Global,
    catalogue: &Catalogue,
    request: &Request,
    row: &Row,
) -> Result<(bool, Verdict), Fail> {
    let text = text_of(alloc, catalogue, request, row)?;
    let mut source = MemorySource::new(&text, 4096);
    let verdict = judge(alloc, catalogue, request, &mut source)?;
    Ok((text.as_slice() == row.report.as_bytes(), verdict))
}

fn outcome_of(alloc: Global, catalogue: &Catalogue, row: &Row) -> Result<(bool, Verdict), Fail> {
    outcome_over(
        alloc,
        catalogue,
        &request_of(alloc, row.request, catalogue)?,
        row,
    )
}

fn outcome(alloc: Global, row: &Row) -> Result<(bool, Verdict), Fail> {
    outcome_of(alloc, &catalogue_of(alloc, row.catalogue)?, row)
}

#[test]
fn steps_in_any_order(rt: HostRuntime) -> Result<(), Fail> {
    assert_eq!(rt; outcome(rt.alloc(), &WISHES)?, (true, Verdict::Yes));
    Ok(())
}

#[test]
fn lines_in_order(rt: HostRuntime) -> Result<(), Fail> {
    assert_eq!(rt; outcome(rt.alloc(), &MARKET)?, (true, Verdict::Yes));
    Ok(())
}

#[test]
fn conditions_in_time(rt: HostRuntime) -> Result<(), Fail> {
    assert_eq!(rt; outcome(rt.alloc(), &WAITING)?, (true, Verdict::Yes));
    Ok(())
}
