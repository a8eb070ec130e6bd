//! Making several calls on a volume, one after another.
ghost use Rattle.std.specs.Prelude.{◌≡◌, IfErr, OnOk};
ghost use Rattle.vol_batch.specs.Batch.{AreMade, AreStopped};

use std::alloc::Global;
use vol_dir::Refusal;
use vol_volume::{Call, Volume};

/// Makes calls on a volume in order, up to the first that is refused. That call is handed back with its refusal, and the volume keeps the changes of
/// the calls before it.
pub fn make_all(alloc: Global, volume: &mut Volume, calls: Vec<Call>) -> Result<(), (Refusal, Call)>
    ensures made { OnOk result (AreMade volume.old calls.items volume.new) }
    ensures refused { IfErr result (λ (refusal, call). AreStopped volume.old calls.items volume.new refusal call) }
{
    let mut left = calls;
    left.reverse();
    'calls: while let Some(call) = left.pop() {
        match volume.call(alloc, call) {
            Ok(_) => {}
            Err(refused) => return Err(refused),
        }
    }
    Ok(())
}
