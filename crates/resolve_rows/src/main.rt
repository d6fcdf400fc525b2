//! Runs the rows of the files `*.row` in the folder where it runs, and prints each that differs
//! from its file.
#![tactic(auto)]

mod answer;
mod escapes;
mod expected;
mod row;

use expected::{Compared, compare};
use row::{Row, file_sections, row_of_line};
use std::process::ExitCode;
use std::{fs, io};

/// How many rows were run, and how many differed.
#[derive(Clone, Copy)]
struct Tally {
    rows: u64,
    differing: u64,
}

impl Tally {
    fn count(&mut self, differs: bool) {
        self.rows = self.rows.saturating_add(1);
        if differs {
            self.differing = self.differing.saturating_add(1);
        }
    }
}

/// The names of the files of rows, in order.
fn row_files(rt: &HostRuntime) -> io::Result<Vec<String>> {
    let mut names = Vec::new(rt.alloc());
    for entry in fs::read_dir(rt, ".")? {
        let entry = entry?;
        if entry.file_name().ends_with(".row") {
            names.push(String::from_str(rt.alloc(), entry.file_name())?)?;
        }
    }
    names.sort()?;
    Ok(names)
}

/// Runs a row, and prints its differences.
fn run_row(rt: &HostRuntime, file: &str, row: &Row<'_>, tally: &mut Tally) -> io::Result<()> {
    let compared = compare(rt.alloc(), row)?;
    tally.count(!matches!(compared, Compared::Agrees));
    match &compared {
        Compared::Agrees => Ok(()),
        Compared::Differs(line) => {
            let number = row.number;
            println!(rt; "{file}, row {number}: {line}")
        }
    }
}

/// Runs each line of a table; the first one has the names of its columns.
fn run_table<'a>(
    rt: &HostRuntime,
    file: &str,
    shared: &Row<'a>,
    table: &'a str,
    tally: &mut Tally,
) -> io::Result<()> {
    let columns = table.split('\n').next().unwrap_or("");
    let mut number = 0u64;
    for line in table.split('\n').skip(1) {
        number = number.saturating_add(1);
        let row = row_of_line(rt.alloc(), shared, columns, line, number)?;
        run_row(rt, file, &row, tally)?;
    }
    Ok(())
}

/// Runs the rows of a file: those of its table, or else its one row.
fn run_file(rt: &HostRuntime, file: &str, tally: &mut Tally) -> io::Result<()> {
    let text = fs::read_to_string(rt, file)?;
    let row = file_sections(rt.alloc(), text.as_str())?;
    match row.table() {
        Some(table) => run_table(rt, file, &row, table, tally),
        None => run_row(rt, file, &row, tally),
    }
}

/// Runs the rows of all files, and prints how many there were.
fn run_all(rt: &HostRuntime) -> io::Result<Tally> {
    let mut tally = Tally {
        rows: 0,
        differing: 0,
    };
    for file in &row_files(rt)? {
        run_file(rt, file.as_str(), &mut tally)?;
    }
    Ok(tally)
}

fn main(rt: HostRuntime) -> io::Result<ExitCode> {
    let Tally { rows, differing } = run_all(&rt)?;
    if differing == 0 {
        println!(rt; "{rows} rows, as expected")?;
        return Ok(ExitCode::from(0));
    }
    println!(rt; "{rows} rows, of which {differing} differ")?;
    Ok(ExitCode::from(1))
}
