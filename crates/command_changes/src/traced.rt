//! The outcome of a command that made calls on a volume: the bytes to save, and the trace of its calls.
ghost use Rattle.std.specs.Prelude.{◌≡◌, Err, IfErr, IfOk};
ghost use Rattle.command_faults.specs.Faults.{no_memory};
ghost use Rattle.command_changes.specs.Traced.{IsTraced, IsTracedVolume};

use command_faults::{Fault, Remarked};
use std::alloc::{AllocError, Global};
use vol_trace::trace_of;
use vol_volume::Volume;

/// Returns the outcome of a command that leaves this volume: its bytes to save, and its trace if it is wanted. If memory for the trace runs out, nothing is
/// to be saved.
///
/// Takes for a trace the memory and the time of [`trace_of`].
pub(crate) fn traced(
    alloc: Global,
    made: Result<Volume, Fault>,
    wanted: bool,
) -> Result<Remarked, Fault>
    ensures made { IfOk made (λ volume. IfOk result (IsTracedVolume wanted volume)) }
    ensures memory { IfOk made (λ volume. IfErr result (λ fault. fault ≡ no_memory)) }
    ensures fault { IfErr made (λ fault. result ≡ Err fault) }
{
    match made {
        Ok(volume) => unmount_traced(alloc, volume, wanted),
        Err(fault) => Err(fault),
    }
}

/// Returns the bytes of a volume, and its trace if it is wanted.
fn unmount_traced(alloc: Global, volume: Volume, wanted: bool) -> Result<Remarked, Fault>
    ensures made { IfOk result (IsTracedVolume wanted volume) }
    ensures memory { IfErr result (λ fault. fault ≡ no_memory) }
{
    let trace = trace_if(alloc, &volume, wanted)?;
    Ok(Remarked {
        bytes: volume.unmount(),
        trace,
        lines: Vec::new(alloc),
    })
}

/// Returns the trace of a volume, if it is wanted.
fn trace_if(alloc: Global, volume: &Volume, wanted: bool) -> Result<Option<Vec<u8>>, AllocError>
    ensures { IfOk result (IsTraced wanted volume.now) }
{
    if wanted {
        Ok(Some(trace_of(alloc, volume)?))
    } else {
        Ok(None)
    }
}
