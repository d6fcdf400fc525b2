//! A run with a budget: it gives up below one number, and from it on answers as without one.

use resolve_run::{Outcome, RunStop, run_within};
use resolvo_catalogue::{MemorySink, MemorySource};
use std::alloc::{AllocError, Global};
use std::test::Fail;

const CATALOGUE: &str = "version a 2\nneeds b 0..10\nversion b 5\nneeds a 2..4\n";

const REQUEST: &str = "needs a 0..100\n";

const REPORT: &str = "install\na=2 for request line 1\nb=5 for a=2 line 2\n";

/// How a run with this budget ends, and its text.
fn written(alloc: Global, budget: u64) -> Result<(Result<Outcome, RunStop>, Vec<u8>), AllocError> {
    let mut catalogue = MemorySource::new(CATALOGUE.as_bytes(), 4096);
    let mut request = MemorySource::new(REQUEST.as_bytes(), 4096);
    let mut writer = MemorySink::new(alloc, 100, 4096)?;
    let ended = run_within(
        alloc,
        &mut catalogue,
        &mut request,
        &mut writer,
        Some(budget),
    );
    Ok((ended, Vec::from_slice(alloc, writer.bytes())?))
}

/// Whether a run with this budget gives up and writes nothing.
fn gives_up(alloc: Global, budget: u64) -> Result<bool, AllocError> {
    let (ended, bytes) = written(alloc, budget)?;
    Ok(ended == Err(RunStop::GivenUp) && bytes.is_empty())
}

/// Whether a run with this budget writes the report.
fn answers(alloc: Global, budget: u64) -> Result<bool, AllocError> {
    let (ended, bytes) = written(alloc, budget)?;
    Ok(ended == Ok(Outcome::Installed) && bytes.as_slice() == REPORT.as_bytes())
}

#[test]
fn each_budget(rt: HostRuntime) -> Result<(), Fail> {
    let mut needed = 0u64;
    for budget in 0..40u64 {
        if gives_up(rt.alloc(), budget)? {
            assert_eq!(rt; needed, budget);
            needed = budget + 1;
        } else {
            assert!(rt; answers(rt.alloc(), budget)?, "{budget}");
        }
    }
    assert!(rt; needed > 0 && needed < 40);
    assert!(rt; answers(rt.alloc(), u64::MAX)?);
    Ok(())
}
