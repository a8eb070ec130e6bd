//! Standard output and standard error beside the line that shows what is read and written.
use crate::image_file::FileKind;
use crate::progress::{ProgressLine, Stage};
use crate::system::ImageFiles;
use crate::watched::WatchedHost;
use std::io::{self, Write};
use std::rt::Clock;

/// The path of standard output.
const OUTPUT: &str = "/dev/stdout";

/// What becomes of the line once something is written to a stream.
#[derive(Clone, Copy)]
enum StreamUse {
    /// It may come again: the stream is standard error.
    Errors,
    /// It doesn't come again, since output may be on the same terminal, perhaps through a pipe.
    Output,
    /// It shows how much of the output is written, which is in a regular file.
    File,
}

/// A standard stream, before each write to which the line is wiped.
pub struct WatchedStream<'a, R, W> {
    stream: W,
    host: WatchedHost<'a, R>,
    uses: StreamUse,
    is_begun: bool,
}

impl<'a, R: ImageFiles + Clock + Eprint> WatchedHost<'a, R> {
    /// Returns standard error, which is `stream`.
    pub fn errors<W>(&self, stream: W) -> WatchedStream<'a, R, W> {
        self.stream(stream, StreamUse::Errors)
    }

    /// Returns standard output, which is `stream`.
    pub fn output<W>(&self, stream: W) -> WatchedStream<'a, R, W> {
        if self.line.is_wanted() && is_in_file(self.rt) {
            self.stream(stream, StreamUse::File)
        } else {
            self.stream(stream, StreamUse::Output)
        }
    }

    /// Returns a stream to which nothing was written.
    fn stream<W>(&self, stream: W, uses: StreamUse) -> WatchedStream<'a, R, W> {
        WatchedStream {
            stream,
            host: WatchedHost::new(self.rt, self.line),
            uses,
            is_begun: false,
        }
    }
}

/// True if standard output is a regular file.
fn is_in_file<R: ImageFiles>(rt: &R) -> bool {
    match rt.stamp_at(OUTPUT) {
        Ok(stamp) => stamp.kind == FileKind::Regular,
        Err(_) => false,
    }
}

impl<R, W: Drop> Drop for WatchedStream<'_, R, W> {
    fn drop(self) {
        let WatchedStream {
            stream: _,
            host: _,
            uses: _,
            is_begun: _,
        } = self;
    }
}

impl<R: Clock + Eprint, W: Write> Write for WatchedStream<'_, R, W> {
    ghost contents = { λ watched. W.contents watched.stream };

    fn write(&mut self, buf: &[u8]) -> io::Result<usize> {
        let WatchedHost { rt, line } = self.host;
        match self.uses {
            StreamUse::Errors => line.wipe(rt),
            StreamUse::Output => line.end(rt),
            StreamUse::File if self.is_begun => {}
            StreamUse::File => {
                self.is_begun = true;
                line.begin(rt, Stage::Writing(None));
            }
        }
        let result = self.stream.write(buf);
        if let (Ok(count), StreamUse::File) = (result, self.uses) {
            line.count_written(rt, count as u64);
        }
        result
    }

    fn flush(&mut self) -> io::Result<()> {
        self.host.line.wipe(self.host.rt);
        self.stream.flush()
    }
}
