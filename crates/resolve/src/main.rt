//! `resolve solve CATALOGUE REQUEST`, and `resolve` alone for standard input: writes the report, or
//! why there is none.
//! `resolve judge CATALOGUE REQUEST REPORT`: writes whether the report holds, or where it doesn't.
#![tactic(auto)]

mod arguments;

use crate::arguments::read_arguments;
use resolve_run::{
    Checked, INPUT_LIMIT, Outcome, Release, RunFault, check, check_ending, read_input, run_ending,
    run_with, split_input,
};
use resolvo_catalogue::Counted;
use std::fs::File;
use std::io;
use std::process::ExitCode;

const USAGE: &str =
    "usage: resolve solve CATALOGUE REQUEST, or resolve judge CATALOGUE REQUEST REPORT";

/// Opens a file. It fails on a name that isn't UTF-8.
fn open(rt: &HostRuntime, name: &Option<String>) -> Option<File> {
    match name {
        Some(name) => File::open(rt, name.as_str()).ok(),
        None => None,
    }
}

/// Solves the texts of two files, which are opened before either is read.
fn solve_files(
    rt: &HostRuntime,
    catalogue: &Option<String>,
    request: &Option<String>,
) -> Result<Outcome, RunFault> {
    let Some(catalogue) = open(rt, catalogue) else {
        return Err(RunFault::Reader);
    };
    let Some(request) = open(rt, request) else {
        return Err(RunFault::Reader);
    };
    let mut catalogue = Counted::new(catalogue);
    let mut request = Counted::new(request);
    let mut writer = Counted::new(io::writer(rt));
    run_with(
        rt.alloc(),
        &mut catalogue,
        &mut request,
        &mut writer,
        Release::AtExit,
    )
}

/// Judges the report of a file over the texts of two others, which are all opened before any is
/// read.
fn judge_files(
    rt: &HostRuntime,
    catalogue: &Option<String>,
    request: &Option<String>,
    report: &Option<String>,
) -> Result<Checked, RunFault> {
    let Some(catalogue) = open(rt, catalogue) else {
        return Err(RunFault::Reader);
    };
    let Some(request) = open(rt, request) else {
        return Err(RunFault::Reader);
    };
    let Some(report) = open(rt, report) else {
        return Err(RunFault::Reader);
    };
    check(
        rt.alloc(),
        &mut Counted::new(catalogue),
        &mut Counted::new(request),
        &mut Counted::new(report),
        &mut Counted::new(io::writer(rt)),
    )
}

/// Solves standard input: the catalogue before the first line `---`, the request after it.
fn solve_input(rt: &HostRuntime) -> Result<Outcome, RunFault> {
    let mut source = Counted::new(rt.stdin());
    let input = read_input(rt.alloc(), &mut source, INPUT_LIMIT)?;
    let (catalogue, request) = split_input(&input);
    let mut writer = Counted::new(io::writer(rt));
    run_with(
        rt.alloc(),
        &mut Counted::new(catalogue),
        &mut Counted::new(request),
        &mut writer,
        Release::AtExit,
    )
}

/// Prints the last line, if there is one. A failed write prints nothing more.
fn finish(rt: &HostRuntime, status: u8, line: &str) -> ExitCode {
    if !line.is_empty() {
        let _ = println!(rt; "{line}");
    }
    ExitCode::from(status)
}

/// Whether an argument is this word.
fn is_word(argument: &Option<String>, word: &str) -> bool {
    match argument {
        Some(argument) => argument.as_str() == word,
        None => false,
    }
}

/// Runs the command of the arguments; returns the status, and the last line.
fn answer(rt: &HostRuntime, words: &[Option<String>]) -> (u8, &'static str) {
    match words.len() {
        0 => run_ending(&solve_input(rt)),
        3 if is_word(&words[0], "solve") => run_ending(&solve_files(rt, &words[1], &words[2])),
        4 if is_word(&words[0], "judge") => {
            check_ending(&judge_files(rt, &words[1], &words[2], &words[3]))
        }
        _ => (2, USAGE),
    }
}

fn main(rt: HostRuntime) -> ExitCode {
    let (status, line) = match read_arguments(&rt) {
        Ok(words) => answer(&rt, words.as_slice()),
        Err(fault) => run_ending(&Err(fault)),
    };
    finish(&rt, status, line)
}
