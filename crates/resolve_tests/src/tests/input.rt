//! Standard input: how it is parted, and its limit.

use resolve_run::{RunFault, read_input, split_input};
use resolvo_catalogue::MemorySource;
use std::alloc::Global;
use std::test::Fail;

const REQUEST: &str = "needs a\n";

#[test]
fn input_is_parted(rt: HostRuntime) -> Result<(), Fail> {
    for (input, catalogue, request) in &[
        ("a\n---\nb\n", "a\n", "b\n"),
        ("---\n---\n", "", "---\n"),
        ("a\n---", "a\n", ""),
        ("a\n --- \nb", "a\n --- \nb", ""),
        ("a---\n", "a---\n", ""),
        ("", "", ""),
    ] {
        let parted = split_input(input.as_bytes());
        assert_eq!(rt; parted.0, catalogue.as_bytes(), "{input}");
        assert_eq!(rt; parted.1, request.as_bytes(), "{input}");
    }
    Ok(())
}

/// Whether the input is read whole under this limit; else it is too long.
fn is_read(alloc: Global, limit: usize) -> Option<bool> {
    let mut source = MemorySource::new(REQUEST.as_bytes(), 3);
    match read_input(alloc, &mut source, limit) {
        Ok(bytes) => (bytes.as_slice() == REQUEST.as_bytes()).then_some(true),
        Err(fault) => (fault == RunFault::TooLong).then_some(false),
    }
}

#[test]
fn input_has_a_limit(rt: HostRuntime) {
    assert_eq!(rt; is_read(rt.alloc(), 8), Some(true));
    assert_eq!(rt; is_read(rt.alloc(), 7), Some(false));
}
