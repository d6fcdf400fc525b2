//! Catalogues whose reader fails.

use resolvo_catalogue::{Catalogue, MemorySource, ReadFault};
use resolvo_catalogue_core::{
    catalogue_has_no_fault, request_has_no_fault, text_is_one_catalogue, text_is_one_request,
};
use std::alloc::Global;

#[test]
fn laws() {
    catalogue_has_no_fault();
    text_is_one_catalogue();
    request_has_no_fault();
    text_is_one_request();
}

/// The fault of a catalogue whose reader fails after so many calls.
fn fault_after(alloc: Global, calls: u64) -> Option<ReadFault> {
    let text = b"version a 1\nneeds b\nlock b 1\nversion b 1\n".as_slice();
    let mut source = MemorySource::new(text, 10).failing_after(calls);
    Catalogue::read(alloc, &mut source).err()
}

/// A read that fails in mid-text is answered, unless a whole line that was read before is faulty.
#[test]
fn failing_reads(rt: HostRuntime) {
    for (calls, fault) in &[
        (0u64, ReadFault::Reader),
        (1, ReadFault::Reader),
        (2, ReadFault::Reader),
        (3, ReadFault::Fault(3)),
        (4, ReadFault::Fault(3)),
        (9, ReadFault::Fault(3)),
    ] {
        assert_eq!(rt; fault_after(rt.alloc(), *calls), Some(*fault), "{calls}");
    }
}
