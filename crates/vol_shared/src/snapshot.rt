//! A snapshot, for contracts alone, of the volume under the lock.
use std::marker::Model;
use std::snapshot::Snapshot;
use vol_views::SeenPrefix;
use vol_volume::Volume;

/// A snapshot, for contracts alone, of the volume under the lock and of the log prefix with its records. At run time it only knows whether there is a
/// log.
#[derive(Drop)]
pub struct LockedVolume {
    /// The volume.
    pub volume: Snapshot<Volume>,
    /// The log prefix, if the records are published.
    pub prefix: Option<SeenPrefix>,
}

impl Model for LockedVolume {
    ghost use Rattle.vol_views.specs.Views.{book_in};
    ghost use Rattle.vol_shared.specs.Stored.{Stored, stored_with};

    ghost Value = { Stored };

    ghost view = { λ k. stored_with (book_in k.prefix) k.volume.value };
}
