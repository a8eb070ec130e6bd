//! Saving an image to a sink.
ghost use Rattle.std.specs.Prelude.{◌≡◌, true, IfErr, OnOk, OnErr};
ghost use Rattle.std.specs.Io.KnownBytes.{Appends};
ghost use Rattle.pdp_words.specs.Devices.{AppendsFront};

use crate::device::Sink;
use crate::image::Image;
use thiserror::Error;

/// The error of a sink, possibly after some bytes were written.
#[derive(Debug, Clone, Copy, PartialEq, Eq, Error)]
#[error("the device failed after {written} bytes")]
pub struct SaveFault {
    /// The number of bytes written before the error, counted from the start of the call.
    pub written: u64,
}

/// Writes `bytes` to `sink`, in as many writes as needed. Fails only if the sink fails; then exactly the first `written` bytes were written. Takes no
/// memory.
pub fn write_all<W: Sink>(sink: &mut W, bytes: &[u8]) -> Result<(), SaveFault>
    ensures ok { OnOk result (Appends (W.contents sink.old) (W.contents sink.new) bytes.now) }
    ensures working { OnOk result (W.failed sink.new ≡ W.failed sink.old) }
    ensures part { IfErr result (λ e. AppendsFront (W.contents sink.old) (W.contents sink.new) bytes.now e.written) }
    ensures fault { OnErr result (W.failed sink.new ≡ true) }
{
    let mut at = 0;
    while at < bytes.len() {
        match sink.write(&bytes[at..]) {
            Ok(count) => at += count,
            Err(_) => return Err(SaveFault { written: at as u64 }),
        }
    }
    Ok(())
}

/// Writes all bytes of `image` to `sink`, as [`write_all`] does. Takes no memory.
pub fn save<W: Sink>(image: &Image, sink: &mut W) -> Result<(), SaveFault>
    ensures ok { OnOk result (Appends (W.contents sink.old) (W.contents sink.new) image.now) }
    ensures working { OnOk result (W.failed sink.new ≡ W.failed sink.old) }
    ensures part { IfErr result (λ e. AppendsFront (W.contents sink.old) (W.contents sink.new) image.now e.written) }
    ensures fault { OnErr result (W.failed sink.new ≡ true) }
{
    write_all(sink, image.as_bytes())
}
