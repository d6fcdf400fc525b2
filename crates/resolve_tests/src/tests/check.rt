//! Checks of a report where a reader or the writer fails, stops or is interrupted.

use super::full::Full;
use resolve_run::{Checked, RunFault, check};
use resolvo_catalogue::{Counted, MemorySink, MemorySource, Sink};
use std::alloc::{AllocError, Global};
use std::test::Fail;

const CATALOGUE: &str = "version a 1\n";

const REQUEST: &str = "needs a\n";

const REPORT: &str = "install\na=1 for request line 1\n";

/// A device, and its behaviour: interruptions, then so many calls that move a byte, then failures.
#[derive(Clone, Copy)]
struct IoFault {
    device: Device,
    interruptions: u32,
    calls: u64,
}

#[derive(Clone, Copy, Debug, PartialEq, Eq)]
enum Device {
    Catalogue,
    Request,
    Report,
    Writer,
}

impl IoFault {
    fn failing(device: Device, calls: u64) -> IoFault {
        IoFault {
            device,
            interruptions: 0,
            calls,
        }
    }

    fn interrupted(device: Device, interruptions: u32) -> IoFault {
        IoFault {
            device,
            interruptions,
            calls: u64::MAX,
        }
    }

    fn source(self, device: Device, text: &str) -> MemorySource<'_> {
        let source = MemorySource::new(text.as_bytes(), 1);
        if self.device != device {
            return source;
        }
        source
            .interrupted(self.interruptions)
            .failing_after(self.calls)
    }

    fn sink(self, alloc: Global) -> Result<MemorySink, AllocError> {
        let sink = MemorySink::new(alloc, 100, 1)?;
        if self.device != Device::Writer {
            return Ok(sink);
        }
        Ok(
            sink.interrupted(self.interruptions)
                .failing_after(self.calls),
        )
    }
}

/// How a check over these devices ends.
fn checked<W: Sink>(
    alloc: Global,
    faulty_device: IoFault,
    writer: &mut W,
) -> Result<Checked, RunFault> {
    check(
        alloc,
        &mut faulty_device.source(Device::Catalogue, CATALOGUE),
        &mut faulty_device.source(Device::Request, REQUEST),
        &mut faulty_device.source(Device::Report, REPORT),
        writer,
    )
}

/// Whether a check ends so, and writes this.
fn ends(
    alloc: Global,
    faulty_device: IoFault,
    (wanted, written): (Result<Checked, RunFault>, &str),
) -> Result<bool, AllocError> {
    let mut writer = faulty_device.sink(alloc)?;
    let ended = checked(alloc, faulty_device, &mut writer);
    Ok(ended == wanted && writer.bytes() == written.as_bytes())
}

/// How a check ends whose writer takes no byte any more after so many.
fn ends_full(alloc: Global, room: usize) -> Result<Checked, RunFault> {
    let well = IoFault::failing(Device::Writer, u64::MAX);
    checked(alloc, well, &mut Counted::new(Full::after(room)))
}

#[test]
fn each_read_failing(rt: HostRuntime) -> Result<(), Fail> {
    for (device, text) in &[
        (Device::Catalogue, CATALOGUE),
        (Device::Request, REQUEST),
        (Device::Report, REPORT),
    ] {
        for calls in 0..=text.len() as u64 {
            let faulty_device = IoFault::failing(*device, calls);
            let failed = (Err(RunFault::Reader), "");
            assert!(rt; ends(rt.alloc(), faulty_device, failed)?, "{text} {calls}");
        }
    }
    Ok(())
}

/// A writer that fails, and one that takes no byte any more.
#[test]
fn each_write_failing(rt: HostRuntime) -> Result<(), Fail> {
    for (calls, written) in &[(0u64, ""), (1, "y"), (2, "ye"), (3, "yes")] {
        let failing = IoFault::failing(Device::Writer, *calls);
        let failed = (Err(RunFault::Writer), *written);
        assert!(rt; ends(rt.alloc(), failing, failed)?, "{calls}");
        assert_eq!(rt; ends_full(rt.alloc(), written.len()), Err(RunFault::Writer));
    }
    assert_eq!(rt; ends_full(rt.alloc(), 4), Ok(Checked::Yes));
    Ok(())
}

#[test]
fn interruptions_in_a_row(rt: HostRuntime) -> Result<(), Fail> {
    for (device, fault) in &[
        (Device::Catalogue, RunFault::Reader),
        (Device::Request, RunFault::Reader),
        (Device::Report, RunFault::Reader),
        (Device::Writer, RunFault::Writer),
    ] {
        let most = IoFault::interrupted(*device, 1000);
        assert!(rt; ends(rt.alloc(), most, (Ok(Checked::Yes), "yes\n"))?);
        let more = IoFault::interrupted(*device, 1001);
        assert!(rt; ends(rt.alloc(), more, (Err(*fault), ""))?);
    }
    Ok(())
}
