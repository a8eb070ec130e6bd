//! A shared volume after it was closed.
ghost use Rattle.std.specs.Prelude.{◌≡◌, ◌+◌, ◌<◌, ◌^◌, ◌↔◌, [], IfOk, IsTrue, Err};
ghost use Rattle.vol_receipts.specs.Agrees.{origin_of, Agrees, record_of};
ghost use Rattle.vol_receipts.specs.Findings.{AreCounted};
ghost use Rattle.vol_shared.specs.Stored.{stored_of, next_number};

use std::alloc::{AllocError, Global};
use std::marker::Model;
use vol_receipts::{ConfirmFault, Confirmed, Receipt, confirm, confirm_all};
use vol_volume::Volume;

/// A shared volume after it was closed, with the number of records that its sessions counted.
#[derive(Drop)]
pub struct Closed {
    pub(crate) volume: Volume,
    pub(crate) accepted: u64,
}

impl Model for Closed {
    ghost use Rattle.std.specs.Prelude.{◌≡◌};
    ghost use Rattle.vol_volume.specs.Volume.{Mounted};
    ghost use Rattle.vol_shared.specs.Stored.{stored_of, next_number};

    ghost Value = { Mounted };

    ghost view = { λ c. c.volume };

    ghost invariant = { λ c. c.accepted ≡ next_number (stored_of c.volume) };
}

impl Closed {
    /// Returns a closed volume that was opened with `records` records, and that accepted `calls` calls since.
    pub(crate) fn new(volume: Volume, records: u64, calls: u128) -> Closed
        requires numbered { next_number (stored_of volume) < 2 ^ 64 }
        requires counted { calls + records ≡ next_number (stored_of volume) }
        ensures { result ≡ volume }
    {
        Closed {
            volume,
            accepted: records + calls as u64,
        }
    }

    /// Returns the volume, with the records that all sessions made since the last cut.
    pub fn volume(&self) -> &Volume
        ensures { result.now ≡ self.now }
    {
        &self.volume
    }

    /// Returns the volume for the caller to keep. Takes no memory.
    pub fn into_volume(self) -> Volume
        ensures { result ≡ self }
    {
        let Closed {
            volume,
            accepted: _,
        } = self;
        volume
    }

    /// Returns the number of records when the volume was opened plus the number of calls that sessions counted as accepted. Includes records that
    /// were cut.
    pub fn accepted(&self) -> u64
        ensures { result ≡ next_number (stored_of self.now) }
    {
        self.accepted
    }

    /// True if a receipt agrees with the journal. Returns `Cut` if its number is below the number of the journal's first record, and `NoMemory` if an
    /// allocation was refused, which never happens for the receipt of an accepted call.
    ///
    /// Takes as much memory and time as [`vol_receipts::confirm`].
    pub fn confirm(&self, alloc: Global, receipt: &Receipt) -> Result<bool, ConfirmFault>
        ensures agrees { IfOk result (λ agrees. IsTrue agrees ↔ Agrees (origin_of self.now) self.now.journal receipt.now) }
        ensures cut { result ≡ Err ConfirmFault.Cut ↔ receipt.now.at < self.now.first }
        ensures memory { result ≡ Err ConfirmFault.NoMemory → record_of receipt.now.asked receipt.now.outcome ≡ [] }
    {
        confirm(&self.volume, alloc, receipt)
    }

    /// Counts the receipts that agree with the journal, and the receipts whose records were cut. To learn which they are, pass [`Closed::volume`] to
    /// [`vol_receipts::find_all`]. Takes the memory and time of [`vol_receipts::confirm_all`].
    pub fn confirm_all(&self, alloc: Global, receipts: &[Receipt]) -> Result<Confirmed, AllocError>
        ensures { IfOk result (λ confirmed. AreCounted (origin_of self.now) self.now.journal receipts.now confirmed) }
    {
        confirm_all(&self.volume, alloc, receipts)
    }
}
