//! A sink made from a writer of the standard library.
ghost use Rattle.std.specs.Prelude.{◌≡◌, ◌≢◌, ◌<◌, false, length, IfOk, IfErr};
ghost use Rattle.std.specs.IoError.{error_kind};
ghost use Rattle.std.specs.Io.{WritesAtMost};
ghost use Rattle.std.specs.Io.KnownBytes.{WriteAppends};
ghost use Rattle.pdp_words.specs.Adapters.{writer_in, has_write_failed};

use crate::device::Sink;
use std::io::{self, Error, ErrorKind, Write};

/// A sink that writes to a writer. A write that a signal interrupts is retried; after 2^64 - 1 interrupts the call returns `TimedOut`, so that every
/// call ends. A write that accepts none of the bytes is an error, since retrying it might never end. The writer isn't flushed: its owner calls
/// `Write::flush` after the last write, and handles its error. To only borrow a writer, use `IntoWrite::new(&mut writer)`.
#[derive(Drop)]
pub struct IntoWrite<W> {
    writer: W,
    failed: bool,
}

impl<W: Write> IntoWrite<W> {
    /// Returns a sink that writes to `writer`, after the bytes that it already holds, with `failed` false.
    pub fn new(writer: W) -> IntoWrite<W>
        ensures writer { writer_in result ≡ writer }
        ensures bytes { ⟦<IntoWrite<W> as Sink>⟧.contents result ≡ W.contents writer }
        ensures fresh { ⟦<IntoWrite<W> as Sink>⟧.failed result ≡ false }
    {
        IntoWrite {
            writer,
            failed: false,
        }
    }

    /// Returns the writer, with the bytes that it holds.
    pub fn into_inner(self) -> W
        ensures writer { result ≡ writer_in self }
        ensures bytes { W.contents result ≡ ⟦<IntoWrite<W> as Sink>⟧.contents self }
    {
        self.writer
    }
}

impl<W: Write> Sink for IntoWrite<W> {
    ghost contents = { λ sink. W.contents (writer_in sink) };

    ghost failed = { has_write_failed };

    fn write(&mut self, buf: &[u8]) -> io::Result<usize> {
        let result = write_uninterrupted(&mut self.writer, buf);
        if result.is_err() {
            self.failed = true;
        }
        result
    }

    fn failed(&self) -> bool {
        self.failed
    }
}

/// Writes bytes from the front of `buf` once, and again if a signal interrupts the write. A write that accepts none of the bytes is `WriteZero`. After
/// 2^64 - 1 interrupts in a row the call returns `TimedOut`.
pub fn write_uninterrupted<W: Write>(writer: &mut W, buf: &[u8]) -> io::Result<usize>
    ensures bound { WritesAtMost result buf.now }
    ensures bytes { WriteAppends (W.contents writer.old) (W.contents writer.new) result buf.now }
    ensures progress { 0 < length buf.now → IfOk result (λ n. 0 < n) }
    ensures retried { IfErr result (λ e. error_kind e ≢ ErrorKind.Interrupted) }
{
    'tries: for _ in 0..u64::MAX {
        match writer.write(buf) {
            Ok(0) if !buf.is_empty() => return Err(Error::from(ErrorKind::WriteZero)),
            Err(error) if error.kind() == ErrorKind::Interrupted => {}
            result => return result,
        }
    }
    Err(Error::from(ErrorKind::TimedOut))
}
