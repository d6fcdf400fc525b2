//! The judge: its counts of clauses, and readers that fail.

mod devices;
mod steps;

ghost use Rattle.std.specs.Prelude.{◌<◌};

use resolvo_catalogue::{Catalogue, MemorySource, ReadFault, Request};
use resolvo_judge::{Verdict, judge_counted};
use std::alloc::Global;
use std::process::Abort;
use std::test::Fail;

const CHAIN: &str =
    "version p 1\nneeds c\nlimits c 9\nversion c 1\nversion c 2\nversion c 3\nversion c 4\n";

const PROOF: &str =
    "refused\ncatalogue line 2\ncatalogue line 3\nrequest line 1\nstep 1 need request line 1 case 1\nstep 2 gate p=1 line 2\nstep 3 shared c\nstep 4 limit p=1 line 3\nstep 5 outside c 9 holds c=1\nstep 6 outside c 9 holds c=2\nstep 7 outside c 9 holds c=3\nstep 8 outside c 9 holds c=4\nstep 9 derive [] by 1 2 4 5 6 7 8 3\n";

fn catalogue_of(alloc: Global, text: &str) -> Result<Catalogue, ReadFault> {
    Catalogue::read(alloc, &mut MemorySource::new(text.as_bytes(), 4096))
}

fn request_of(alloc: Global, text: &str, catalogue: &Catalogue) -> Result<Request, ReadFault> {
    Request::read(
        alloc,
        &mut MemorySource::new(text.as_bytes(), 4096),
        catalogue,
    )
}

/// The verdict on the proof, and how many namings and readings there were.
fn counted(
    alloc: Global,
    catalogue: &Catalogue,
    request: &Request,
    per_call: usize,
) -> Option<(Verdict, u64, u64)>
    requires { 0 < per_call }
{
    let mut source = MemorySource::new(PROOF.as_bytes(), per_call);
    let found = judge_counted(alloc, catalogue, request, &mut source).ok()?;
    Some((found.verdict, found.readings.named(), found.readings.read()))
}

fn counts_clauses(rt: &impl Abort, alloc: Global, catalogue: &Catalogue, request: &Request) {
    for per_call in &[1usize, 2, 3, 4096] {
        assert!(rt; *per_call > 0);
        let found = counted(alloc, catalogue, request, *per_call);
        assert_eq!(rt; found, Some((Verdict::Yes, 8, 8)), "{per_call}");
    }
}

/// A clause is read for each naming, however the device cuts the bytes.
#[test]
fn clauses_are_counted(rt: HostRuntime) -> Result<(), Fail> {
    let catalogue = catalogue_of(rt.alloc(), CHAIN)?;
    let request = request_of(rt.alloc(), "needs p\n", &catalogue)?;
    counts_clauses(&rt, rt.alloc(), &catalogue, &request);
    Ok(())
}
