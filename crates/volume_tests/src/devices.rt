//! Devices that fail at each of their calls.
ghost use Rattle.std.specs.Prelude.{◌<◌};

use pdp_words::test_streams::{ScriptedReader, ScriptedWriter, WriteMishap};
use pdp_words::{
    FromRead, Image, IntoWrite, LoadFault, SaveFault, Sink, Source, load, save, write_all,
};
use std::alloc::Global;
use std::fmt::Display;
use std::io::{ErrorKind, Write};
use std::process::Abort;

/// Returns `len` bytes; the same 251 bytes are repeated.
fn sample(rt: &impl Abort, alloc: Global, len: usize) -> Vec<u8> {
    let mut bytes = Vec::new(alloc);
    for n in 0..len {
        let pushed = bytes.push((n % 251) as u8);
        pushed.expect(rt, "memory for the bytes");
    }
    bytes
}

/// The number of bytes that the devices below move.
const RUN: usize = 2000;

/// The faults of a writer after which nothing more is written.
const MISHAPS: [WriteMishap; 2] = [WriteMishap::Error(ErrorKind::Other), WriteMishap::TakesNone];

#[test]
fn a_load_fails_exactly_where_a_read_does(rt: HostRuntime) {
    let bytes = sample(&rt, rt.alloc(), RUN);
    for piece in [1, 7, 512] {
        check_loads(&rt, rt.alloc(), &bytes, piece);
    }
}

/// Loads `bytes`, with a failure at each read in turn, the last of which finds the end; and twice more with a failure after that.
fn check_loads(rt: &impl Abort, alloc: Global, bytes: &[u8], piece: usize)
    requires { 0 < piece }
{
    let reads = bytes.len().div_ceil(piece).saturating_add(1);
    for at in 0..reads.saturating_add(2) {
        let label = format_args!("read {at} by {piece}");
        let reader = ScriptedReader::new(bytes, piece).failing_at(at as u64, ErrorKind::Other);
        let mut source = FromRead::new(reader);
        match load(alloc, &mut source) {
            Ok(image) => assert_eq!(rt; (at < reads, image.as_bytes()), (false, bytes), "{label}"),
            Err(fault) => assert_eq!(rt; (at < reads, fault), (true, LoadFault::Device), "{label}"),
        }
        let read = at.saturating_mul(piece).min(bytes.len());
        check_source(rt, source, at < reads, &bytes[read..], &label);
    }
}

/// Checks whether a source has failed, and that these bytes are left in it.
fn check_source(
    rt: &impl Abort,
    source: FromRead<ScriptedReader>,
    has_failed: bool,
    left: &[u8],
    label: &impl Display,
) {
    assert_eq!(rt; source.failed(), has_failed, "{label}");
    assert_eq!(rt; source.into_inner().rest, left, "{label}");
}

#[test]
fn a_save_fails_exactly_where_a_write_does(rt: HostRuntime) {
    let image = Image::from_bytes(sample(&rt, rt.alloc(), RUN));
    for mishap in MISHAPS {
        for piece in [1, 7, 512] {
            check_saves(&rt, rt.alloc(), &image, piece, mishap);
        }
    }
}

/// Saves `image`, with a failure at each write in turn, and twice more with a failure after the last write.
fn check_saves(rt: &impl Abort, alloc: Global, image: &Image, piece: usize, mishap: WriteMishap)
    requires { 0 < piece }
{
    let bytes = image.as_bytes();
    let writes = bytes.len().div_ceil(piece);
    for at in 0..writes.saturating_add(2) {
        let label = format_args!("write {at} by {piece}");
        let writer = ScriptedWriter::new(alloc, piece).failing_at(at as u64, mishap);
        let count = at.saturating_mul(piece).min(bytes.len());
        let fault = SaveFault {
            written: count as u64,
        };
        let wanted = if at < writes { Err(fault) } else { Ok(()) };
        let mut sink = IntoWrite::new(writer);
        assert_eq!(rt; save(image, &mut sink), wanted, "{label}");
        check_sink(rt, sink, at < writes, &bytes[..count], &label);
    }
}

/// Checks whether a sink has failed, and that these bytes were written to it.
fn check_sink(
    rt: &impl Abort,
    sink: IntoWrite<ScriptedWriter>,
    has_failed: bool,
    taken: &[u8],
    label: &impl Display,
) {
    assert_eq!(rt; sink.failed(), has_failed, "{label}");
    assert_eq!(rt; sink.into_inner().taken.as_slice(), taken, "{label}");
}

#[test]
fn interrupted_calls_are_tried_again(rt: HostRuntime) {
    let bytes = sample(&rt, rt.alloc(), RUN);
    for at in [0, 1, 3, 4] {
        check_interrupted_read(&rt, rt.alloc(), &bytes, at);
        check_interrupted_write(&rt, rt.alloc(), &bytes, at);
    }
}

fn check_interrupted_read(rt: &impl Abort, alloc: Global, bytes: &[u8], at: u64) {
    let mut reader = ScriptedReader::new(bytes, 512).failing_at(at, ErrorKind::Interrupted);
    let image = load(alloc, &mut FromRead::new(&mut reader)).expect(rt, "a whole load");
    assert_eq!(rt; image.as_bytes(), bytes, "read {at}");
    assert!(rt; reader.mishap.kind.is_none(), "read {at}");
}

fn check_interrupted_write(rt: &impl Abort, alloc: Global, bytes: &[u8], at: u64) {
    let mishap = WriteMishap::Error(ErrorKind::Interrupted);
    let mut writer = ScriptedWriter::new(alloc, 512).failing_at(at, mishap);
    let result = write_all(&mut IntoWrite::new(&mut writer), bytes);
    assert_eq!(rt; result, Ok(()), "write {at}");
    writer.flush().expect(rt, "a flush");
    assert_eq!(rt; writer.taken.as_slice(), bytes, "write {at}");
}
