//! Confirms one receipt against a volume's journal.
ghost use Rattle.std.specs.Prelude.{◌≡◌, ◌<◌, ◌↔◌, [], IsTrue, IfOk, Err};
ghost use Rattle.vol_receipts.specs.Agrees.{origin_of, Agrees, record_of};

use crate::confirm_many::{ReceiptStatus, find};
use crate::receipts::Receipt;
use std::alloc::Global;
use thiserror::Error;
use vol_volume::Volume;

/// The reason why a receipt could be neither confirmed nor denied.
#[derive(Clone, Copy, Debug, Error)]
pub enum ConfirmFault {
    /// The receipt's number is below the number of the journal's first record: its record was cut.
    #[error("its records were cut")]
    Cut,
    /// An allocation was refused.
    #[error("out of memory")]
    NoMemory,
}

/// True if a receipt agrees with a volume's journal.
///
/// An accepted call is compared with its record, which takes no memory. For any other outcome the journal's starting bytes are mounted again and the
/// records before the receipt's number are replayed. That takes memory for these bytes, for mounting them and for a copy of each record, and costs as
/// much as the replayed calls. A receipt whose number is past the journal's end doesn't agree.
pub fn confirm(volume: &Volume, alloc: Global, receipt: &Receipt) -> Result<bool, ConfirmFault>
    ensures agrees { IfOk result (λ agrees. IsTrue agrees ↔ Agrees (origin_of volume.now) volume.now.journal receipt.now) }
    ensures cut { result ≡ Err ConfirmFault.Cut ↔ receipt.now.at < volume.now.first }
    ensures memory { result ≡ Err ConfirmFault.NoMemory → record_of receipt.now.asked receipt.now.outcome ≡ [] }
{
    match find(volume, &mut None, alloc, receipt) {
        Ok(ReceiptStatus::Agrees) => Ok(true),
        Ok(ReceiptStatus::Differs) => Ok(false),
        Ok(ReceiptStatus::Gone) => Err(ConfirmFault::Cut),
        Err(_) => Err(ConfirmFault::NoMemory),
    }
}
