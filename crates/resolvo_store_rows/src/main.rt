//! Runs the lists of store calls on standard input, and prints each line whose answer differs.
#![tactic(auto)]

mod call;

use call::call_in;
use resolvo_pool::{NameId, R};
use resolvo_store::{ClauseStore, StoreAnswer, StoreCall};
use std::alloc::{AllocError, Global};
use std::io;
use std::io::ErrorKind;
use std::process::ExitCode;

type Call = StoreCall<NameId>;

/// How many lists were run, how many answers there were, and how many of these differ.
#[derive(Clone, Copy)]
struct Tally {
    lists: u32,
    answers: u32,
    differing: u32,
}

/// The counts, or that memory was refused.
fn got<T>(found: R<T>) -> io::Result<T> {
    match found {
        Ok(value) => Ok(value),
        Err(_) => Err(io::Error::from(ErrorKind::OutOfMemory)),
    }
}

/// The call of a line, and its answer.
fn parts(line: &str) -> (&str, &str) {
    line.split_once(" = ").unwrap_or((line, ""))
}

/// Adds the calls that the lines spell.
fn read_calls(alloc: Global, lines: &str, calls: &mut Vec<Call>) -> Result<(), AllocError> {
    for line in lines.split('\n') {
        if let Some(call) = call_in(alloc, parts(line).0)? {
            calls.push(call)?;
        }
    }
    Ok(())
}

/// Prints the line if its answer is another one.
fn compare(
    rt: &HostRuntime,
    line: &str,
    answer: &StoreAnswer,
    tally: &mut Tally,
) -> io::Result<()> {
    tally.answers = tally.answers.saturating_add(1);
    let shown = format!(in rt.alloc(); "{answer:?}")?;
    if shown.as_str() != parts(line).1 {
        tally.differing = tally.differing.saturating_add(1);
        println!(rt; "{line}, and not {shown}")?;
    }
    Ok(())
}

fn compare_all(
    rt: &HostRuntime,
    lines: &str,
    answers: &[StoreAnswer],
    tally: &mut Tally,
) -> io::Result<()> {
    for (line, answer) in lines.split('\n').zip(answers) {
        compare(rt, line, answer, tally)?;
    }
    Ok(())
}

/// The answers to all calls in one run, under the standard setting of the activity.
fn answers_at_once(alloc: Global, calls: &[Call]) -> R<Vec<StoreAnswer>> {
    let mut store: ClauseStore<NameId> = ClauseStore::new(alloc)?;
    store.set_standard_activity_params(true);
    store.run(alloc, calls)
}

fn run_at_once(rt: &HostRuntime, lines: &str, calls: &[Call], tally: &mut Tally) -> io::Result<()> {
    let answers = got(answers_at_once(rt.alloc(), calls))?;
    compare_all(rt, lines, &answers, tally)
}

/// The answer to a call, which is made once more where it is refused: it changed nothing then.
fn answer_to(alloc: Global, store: &mut ClauseStore<NameId>, call: &[Call]) -> R<Vec<StoreAnswer>> {
    match store.run(alloc, call) {
        Ok(answers) => Ok(answers),
        Err(_) => store.run(alloc, call),
    }
}

fn run_each(
    rt: &HostRuntime,
    store: &mut ClauseStore<NameId>,
    lines: &str,
    calls: &[Call],
    tally: &mut Tally,
) -> io::Result<()> {
    for (line, call) in lines.split('\n').zip(calls.chunks(1)) {
        let answers = got(answer_to(rt.alloc(), store, call))?;
        compare_all(rt, line, &answers, tally)?;
    }
    Ok(())
}

/// Runs the calls one by one, under the other setting of the activity.
fn run_one_by_one(
    rt: &HostRuntime,
    lines: &str,
    calls: &[Call],
    tally: &mut Tally,
) -> io::Result<()> {
    let mut store = got(ClauseStore::new(rt.alloc()))?;
    store.set_standard_activity_params(false);
    run_each(rt, &mut store, lines, calls, tally)
}

fn run_calls(
    rt: &HostRuntime,
    lines: &str,
    calls: &mut Vec<Call>,
    tally: &mut Tally,
) -> io::Result<()> {
    read_calls(rt.alloc(), lines, calls)?;
    run_at_once(rt, lines, calls, tally)?;
    run_one_by_one(rt, lines, calls, tally)
}

/// Runs a list, whose first line is its title.
fn run_list(rt: &HostRuntime, list: &str, tally: &mut Tally) -> io::Result<()> {
    let (title, lines) = list.split_once('\n').unwrap_or((list, ""));
    let differing = tally.differing;
    tally.lists = tally.lists.saturating_add(1);
    run_calls(rt, lines, &mut Vec::new(rt.alloc()), tally)?;
    if tally.differing > differing {
        println!(rt; "in the list {title}")?;
    }
    Ok(())
}

fn run_all(rt: &HostRuntime, text: &str) -> io::Result<Tally> {
    let mut tally = Tally {
        lists: 0,
        answers: 0,
        differing: 0,
    };
    for list in text.trim_end().split("\n\n") {
        run_list(rt, list, &mut tally)?;
    }
    Ok(tally)
}

fn main(rt: HostRuntime) -> io::Result<ExitCode> {
    let text = io::read_to_string(rt.alloc(), rt.stdin())?;
    let Tally {
        lists,
        answers,
        differing,
    } = run_all(&rt, &text)?;
    println!(rt;
        "{lists} lists with {answers} answers, of which {differing} are others than expected"
    )?;
    Ok(ExitCode::from(u8::from(differing > 0)))
}
