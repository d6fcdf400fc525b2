//! Reports whose device fails.

use super::{catalogue_of, request_of};
use resolvo_catalogue::{Catalogue, MemorySource, Request};
use resolvo_judge::{JudgeFault, Verdict, judge};
use std::alloc::Global;
use std::process::Abort;
use std::test::Fail;

const REPORT: &str = "install\na=1 for request line 1\n";

/// The answer where the device fails after so many calls.
fn after_calls(
    alloc: Global,
    (catalogue, request): &(Catalogue, Request),
    (text, per_call): (&str, usize),
    calls: u64,
) -> Result<Verdict, JudgeFault> {
    let mut report = MemorySource::new(text.as_bytes(), per_call.max(1)).failing_after(calls);
    judge(alloc, catalogue, request, &mut report)
}

fn asked(alloc: Global) -> Result<(Catalogue, Request), Fail> {
    let catalogue = catalogue_of(alloc, "version a 1\n")?;
    let request = request_of(alloc, "needs a\n", &catalogue)?;
    Ok((catalogue, request))
}

fn reports_each_read(rt: &impl Abort, alloc: Global, asked: &(Catalogue, Request)) {
    for calls in 0..32u64 {
        let found = after_calls(alloc, asked, (REPORT, 1), calls);
        assert_eq!(rt; found, Err(JudgeFault::Reader), "{calls}");
    }
    let found = after_calls(alloc, asked, (REPORT, 1), 40);
    assert_eq!(rt; found, Ok(Verdict::Yes));
}

/// A read that fails is reported, at any call.
#[test]
fn each_read_failing(rt: HostRuntime) -> Result<(), Fail> {
    reports_each_read(&rt, rt.alloc(), &asked(rt.alloc())?);
    Ok(())
}

fn reports_the_line(rt: &impl Abort, alloc: Global, asked: &(Catalogue, Request)) {
    let found = after_calls(alloc, asked, ("install\na=2 for request line 1\n", 64), 1);
    assert_eq!(rt; found, Ok(Verdict::No(2)));
    let found = after_calls(alloc, asked, ("install\na=2 for request line", 64), 1);
    assert_eq!(rt; found, Err(JudgeFault::Reader));
}

/// A whole line that was read is judged before the read that fails; an unfinished one isn't.
#[test]
fn a_wrong_line_before_a_failing_read(rt: HostRuntime) -> Result<(), Fail> {
    reports_the_line(&rt, rt.alloc(), &asked(rt.alloc())?);
    Ok(())
}
