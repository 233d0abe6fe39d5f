//! What no clause says: that each call answers while there is memory, that a failure in mid-stream loses and
//! doubles nothing, and that the adapters pass bytes on and flush.
use crate::{
    Failed, LoadStop, MemSink, MemSource, Reading, Shelf, Sink, Source, Stop, SureShelf, SureSink,
    SureSource, Writing,
};
use eir_term::Text;
use std::io::{Error, ErrorKind, Read, Write};
use std::test::Fail;

const TEXT: &[u8] = b"abcdefgh";

/// Reads to the end, and goes on after a failure. The bytes, and how often it failed.
fn read_all<S: Source>(rt: &HostRuntime, source: &mut S) -> Result<(Vec<u8>, u32), Fail> {
    let mut all = Vec::new(rt.alloc());
    let mut failures = 0u32;
    for _ in 0..20 {
        let mut buffer = [0; 5];
        match source.read(&mut buffer) {
            Ok(0) => break,
            Ok(count) => all.extend_from_slice(&buffer[..count])?,
            Err(Failed) => failures = failures.saturating_add(1),
        }
    }
    Ok((all, failures))
}

/// Writes all, and goes on after a failure. How often it failed.
fn write_all<K: Sink>(sink: &mut K, bytes: &[u8]) -> Result<u32, Fail> {
    let mut rest = bytes;
    let mut failures = 0u32;
    for _ in 0..20 {
        if rest.is_empty() {
            break;
        }
        match sink.write(rest) {
            Ok(count) => rest = &rest[count..],
            Err(Stop::Failed) => failures = failures.saturating_add(1),
            Err(stop) => return Err(stop.into()),
        }
    }
    Ok(failures)
}

/// A read that fails must lose nothing, and the failure must be the listed call's alone. Three bytes a read:
/// three reads and the end, so the fifth call is never made.
#[test]
fn each_read_fails_in_turn(rt: HostRuntime) -> Result<(), Fail> {
    for (fails, want) in [(1u64, 1u32), (2, 1), (3, 1), (4, 1), (5, 0)] {
        let bytes = TEXT.to_vec(rt.alloc())?;
        let mut source = MemSource::new(bytes, 3, vec![in rt.alloc(); fails]?);
        let (all, failures) = read_all(&rt, &mut source)?;
        assert_eq!(rt; all.as_slice(), TEXT, "call {fails}");
        assert_eq!(rt; failures, want, "call {fails}");
    }
    Ok(())
}

/// The same of writes: three of at most three bytes, so the fourth call is never made.
#[test]
fn each_write_fails_in_turn(rt: HostRuntime) -> Result<(), Fail> {
    for (fails, want) in [(1u64, 1u32), (2, 1), (3, 1), (4, 0)] {
        let mut sink = MemSink::new(rt.alloc(), 3, vec![in rt.alloc(); fails]?);
        assert_eq!(rt; write_all(&mut sink, TEXT)?, want, "call {fails}");
        assert_eq!(rt; sink.written(), TEXT, "call {fails}");
    }
    Ok(())
}

#[test]
fn sure_streams_move_all(rt: HostRuntime) -> Result<(), Fail> {
    let mut source = SureSource::new(TEXT.to_vec(rt.alloc())?);
    let (all, failures) = read_all(&rt, &mut source)?;
    assert_eq!(rt; all.as_slice(), TEXT);
    assert_eq!(rt; failures, 0);
    let mut sink = SureSink::new(rt.alloc());
    assert_eq!(rt; write_all(&mut sink, TEXT)?, 0);
    assert_eq!(rt; sink.written(), TEXT);
    Ok(())
}

#[test]
fn a_shelf_keeps_files(rt: HostRuntime) -> Result<(), Fail> {
    let mut shelf = SureShelf::new(rt.alloc());
    let (left, right) = (
        Text::make(rt.alloc(), b"left")?,
        Text::make(rt.alloc(), b"right")?,
    );
    shelf.put(&left, b"old")?;
    shelf.store(&right, b"")?;
    shelf.store(&left, TEXT)?;
    assert_eq!(rt; shelf.file(&left), Some(TEXT));
    assert_eq!(rt; shelf.file(&right), Some(b"".as_slice()));
    assert_eq!(rt; shelf.load(&left, 8)?.as_slice(), TEXT);
    assert!(rt; matches!(shelf.load(&left, 7), Err(LoadStop::TooLong)));
    let other = Text::make(rt.alloc(), b"lef")?;
    assert!(rt; matches!(shelf.load(&other, 8), Err(LoadStop::Missing)));
    Ok(())
}

#[test]
fn adapters_pass_bytes_on(rt: HostRuntime) -> Result<(), Fail> {
    let (all, failures) = read_all(&rt, &mut Reading::new(TEXT))?;
    assert_eq!(rt; all.as_slice(), TEXT);
    assert_eq!(rt; failures, 0);
    let mut kept = Vec::new(rt.alloc());
    assert_eq!(rt; write_all(&mut Writing::new(&mut kept), TEXT)?, 0);
    assert_eq!(rt; kept.as_slice(), TEXT);
    Ok(())
}

/// Which call of a device fails.
#[derive(Clone, Copy, PartialEq, Eq)]
enum Fault {
    Call,
    Nothing,
    Flush,
    None,
}

/// A device with one fault, and how often it was flushed.
#[derive(Drop)]
struct Device {
    fault: Fault,
    flushes: u32,
}

impl Read for Device {
    fn read(&mut self, buf: &mut [u8]) -> std::io::Result<usize> {
        match self.fault {
            Fault::Call => Err(Error::from(ErrorKind::BrokenPipe)),
            _ => Ok(buf.len().min(2)),
        }
    }
}

impl Write for Device {
    fn write(&mut self, buf: &[u8]) -> std::io::Result<usize> {
        match self.fault {
            Fault::Call => Err(Error::from(ErrorKind::BrokenPipe)),
            Fault::Nothing => Ok(0),
            _ => Ok(buf.len().min(2)),
        }
    }

    fn flush(&mut self) -> std::io::Result<()> {
        self.flushes = self.flushes.saturating_add(1);
        match self.fault {
            Fault::Flush => Err(Error::from(ErrorKind::BrokenPipe)),
            _ => Ok(()),
        }
    }
}

/// Each fault of a device is a failed call, and a write that went well was flushed once.
#[test]
fn devices_fail(rt: HostRuntime) -> Result<(), Fail> {
    let mut buffer = [0; 5];
    for (fault, read, write, want) in [
        (Fault::Call, None, None, 0u32),
        (Fault::Nothing, Some(2), None, 0),
        (Fault::Flush, Some(2), None, 1),
        (Fault::None, Some(2), Some(2), 1),
    ] {
        let mut device = Device { fault, flushes: 0 };
        assert_eq!(rt; Reading::new(&mut device).read(&mut buffer).ok(), read);
        assert_eq!(rt; Writing::new(&mut device).write(TEXT).ok(), write);
        assert_eq!(rt; device.flushes, want);
    }
    Ok(())
}
