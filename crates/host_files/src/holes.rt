//! Bytes written with holes in the place of zeros.
ghost use Rattle.std.specs.Prelude.{◌≡◌, true, OnErr, OnOk};
ghost use Rattle.std.specs.Io.KnownBytes.{Appends};
ghost use Rattle.ustar.specs.Read.{is_zeros};

use pdp_words::{Sink, write_all};
use ustar::is_zeros;

/// The number of bytes that are examined for zeros at once: a block of most file systems.
const HOLE: usize = 4096;

/// A sink has failed.
#[derive(Clone, Copy)]
pub struct SinkFailed;

/// A sink that can have holes: zeros that take no room on its disk.
pub trait HoleSink: Sink {
    /// True if the sink has holes.
    fn has_holes(&self) -> bool;

    /// Appends bytes that are all zero, as a hole if the sink has holes.
    fn append_zeros(&mut self, zeros: &[u8]) -> Result<(), SinkFailed>
        requires { is_zeros zeros.now ≡ true }
        ensures ok { OnOk result (Appends (Self.contents self.old) (Self.contents self.new) zeros.now) }
        ensures fault { OnErr result (Self.failed self.new ≡ true) };
}

/// Writes `bytes` to `sink`, with a hole for each piece of 4,096 bytes that are all zero, if the sink has holes. Fails only if the sink fails. Takes no
/// memory.
pub fn write_with_holes<W: HoleSink>(sink: &mut W, bytes: &[u8]) -> Result<(), SinkFailed>
    ensures ok { OnOk result (Appends (W.contents sink.old) (W.contents sink.new) bytes.now) }
    ensures fault { OnErr result (W.failed sink.new ≡ true) }
{
    if !sink.has_holes() {
        return write_all(sink, bytes).map_err(|_| SinkFailed);
    }
    let mut at = 0;
    'pieces: while at < bytes.len() {
        let end = bytes.len().min(at + HOLE);
        let piece = &bytes[at..end];
        if is_zeros(piece) {
            sink.append_zeros(piece)?;
        } else {
            let Ok(()) = write_all(sink, piece) else {
                return Err(SinkFailed);
            };
        }
        at = end;
    }
    Ok(())
}
