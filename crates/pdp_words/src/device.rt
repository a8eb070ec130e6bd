//! Devices that images are loaded from and saved to.
ghost use Rattle.std.specs.Prelude.{◌≡◌, ◌≢◌, ℕ, ◌<◌, Bool, true, List, Option, length, IfOk, OnOk, IfErr, OnErr};
ghost use Rattle.std.specs.IoError.{error_kind};
ghost use Rattle.std.specs.Io.{ReadsAtMost, WritesAtMost};
ghost use Rattle.std.specs.Io.KnownBytes.{ReadConsumes, WriteAppends};

use std::io::{self, ErrorKind};

/// A device that bytes are read from.
pub trait Source {
    // the bytes that later reads will return, if they are known
    ghost remaining: { Self → Option (List ℕ) };

    // true if a read has returned an error
    ghost failed: { Self → Bool };

    /// Reads any number of bytes into the front of `buf`, and returns this number. It is 0 only at the end, or if `buf` is empty. An error consumes
    /// nothing and makes `failed` true. It is never `Interrupted`: an interrupted read is retried.
    fn read(&mut self, buf: &mut [u8]) -> io::Result<usize>
        ensures bound { ReadsAtMost result buf.new }
        ensures bytes { ReadConsumes (remaining self.old) (remaining self.new) result buf.new }
        ensures fault { OnErr result (failed self.new ≡ true) }
        ensures kept { OnOk result (failed self.new ≡ failed self.old) }
        ensures retried { IfErr result (λ e. error_kind e ≢ ErrorKind.Interrupted) };

    /// True if a read has returned an error.
    fn failed(&self) -> bool
        ensures { result ≡ failed self.now };
}

/// A device that bytes are written to. After several writes it holds their bytes one after another, so the `written` of a fault counts the bytes
/// written since the start of the call.
pub trait Sink {
    // the bytes that the device holds, if they are known
    ghost contents: { Self → Option (List ℕ) };

    // true if a write has returned an error
    ghost failed: { Self → Bool };

    /// Writes bytes from the front of `buf`, and returns their number, which is at least one unless `buf` is empty. An error writes nothing and makes
    /// `failed` true. It is never `Interrupted`: an interrupted write is retried.
    fn write(&mut self, buf: &[u8]) -> io::Result<usize>
        ensures bound { WritesAtMost result buf.now }
        ensures bytes { WriteAppends (contents self.old) (contents self.new) result buf.now }
        ensures progress { 0 < length buf.now → IfOk result (λ n. 0 < n) }
        ensures fault { OnErr result (failed self.new ≡ true) }
        ensures kept { OnOk result (failed self.new ≡ failed self.old) }
        ensures retried { IfErr result (λ e. error_kind e ≢ ErrorKind.Interrupted) };

    /// True if a write has returned an error.
    fn failed(&self) -> bool
        ensures { result ≡ failed self.now };
}
