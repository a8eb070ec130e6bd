//! What a command printed, kept in memory, and handed out to a caller's buffer.
ghost use Rattle.std.specs.Prelude.{◌≡◌, false, IfOk};
ghost use Rattle.unixvol_c.specs.Kept.{HasBoth, IsPlaced};

use crate::queries::put_text;
use crate::structs::Seen;
use pdp_words::{IntoWrite, Sink};
use std::alloc::AllocError;

/// The status of a command that ran out of memory.
const OUT_OF_MEMORY: u8 = 4;

/// What a command printed, and its status.
#[derive(Drop)]
pub(crate) struct Kept {
    /// The text that it printed, and after it its lines on standard error.
    bytes: Vec<u8>,
    /// The number of bytes of the text.
    text: usize,
    /// The number of bytes of the lines.
    lines: usize,
    /// The status.
    status: u8,
}

/// Returns what a command wrote to its two streams, with its status. Fails if memory ran out, for the command too.
pub(crate) fn keep(
    output: IntoWrite<Vec<u8>>,
    errors: IntoWrite<Vec<u8>>,
    status: u8,
) -> Result<Kept, AllocError>
    ensures working { IfOk result (λ kept. (⟦<IntoWrite<Vec<u8>> as Sink>⟧.failed output ≡ false)
        × (⟦<IntoWrite<Vec<u8>> as Sink>⟧.failed errors ≡ false)) }
    ensures both { IfOk result (HasBoth (⟦<IntoWrite<Vec<u8>> as Sink>⟧.contents output) (⟦<IntoWrite<Vec<u8>> as Sink>⟧.contents errors)) }
    ensures status { IfOk result (λ kept. kept.status ≡ status) }
{
    if output.failed() || errors.failed() || status == OUT_OF_MEMORY {
        return Err(AllocError);
    }
    let (mut bytes, lines) = (output.into_inner(), errors.into_inner());
    let text = bytes.len();
    bytes.extend_from_slice(&lines)?;
    Ok(Kept {
        bytes,
        text,
        lines: lines.len(),
        status,
    })
}

/// Puts a text and the lines about it into a buffer, one after the other, and sets `seen` to their numbers of bytes and the status. If the buffer is
/// too short, sets only `seen`.
pub(crate) fn hand_out(kept: &Kept, into: &mut [u8], seen: &mut Seen) -> i32
    ensures counted { (seen.new.text ≡ kept.now.text) × (seen.new.lines ≡ kept.now.lines) × (seen.new.status ≡ kept.now.status) }
    ensures placed { IsPlaced kept.now.bytes.items into.old into.new result }
{
    let mut count = 0;
    let result = put_text(&kept.bytes, into, &mut count);
    *seen = Seen {
        text: kept.text,
        lines: kept.lines,
        status: kept.status,
    };
    result
}
