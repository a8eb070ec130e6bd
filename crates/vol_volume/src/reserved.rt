//! Volumes with reserved room for a record in the journal.
ghost use Rattle.std.specs.Prelude.{◌≡◌, IfOk, IfErr};
ghost use Rattle.vol_volume.specs.Journal.{MayFollow};
ghost use Rattle.vol_volume.specs.Volume.{Accepts, reads_as};

use crate::calls::Record;
use crate::volume::{Parts, Volume, accept};
use std::alloc::{AllocError, Global};
use std::marker::Model;

/// A volume whose journal has room for one more record, so that adding it takes no memory.
#[derive(Drop)]
pub struct Reserved {
    parts: Parts,
}

impl Model for Reserved {
    ghost use Rattle.std.specs.Prelude.{◌<◌, vec_len, vec_capacity};
    ghost use Rattle.vol_volume.specs.Volume.{Mounted};
    ghost use Rattle.vol_volume.specs.Parts.{held, IsKept};

    ghost Value = { Mounted };

    ghost view = { λ v. held v.parts };

    ghost invariant = { λ v. IsKept v.parts × (vec_len v.parts.records < vec_capacity v.parts.records) };
}

impl Volume {
    /// Reserves room for one more record in the journal. If memory runs out, returns the volume unchanged.
    pub fn reserve(self, alloc: Global) -> Result<Reserved, (AllocError, Volume)>
        ensures reserved { IfOk result (λ reserved. reserved ≡ self) }
        ensures handed_back { IfErr result (λ (error, same). same ≡ self) }
    {
        // The journal grows in the allocator that it was created with.
        let _ = alloc;
        let Volume { mut parts } = self;
        if parts.records.reserve(1).is_err() {
            return Err((AllocError, Volume { parts }));
        }
        Ok(Reserved { parts })
    }
}

impl Reserved {
    /// Makes a call with its recorded answer, as [`Volume::redo`] does, and appends the record to the journal. The record
    /// must be one that may come next.
    ///
    /// Takes no memory. Costs as much as [`Volume::call`].
    pub fn redo(self, entry: Record) -> Volume
        requires { MayFollow (reads_as self.edition self.image) entry }
        ensures { Accepts self result entry.call entry.done }
    {
        let Reserved { mut parts } = self;
        let Record { call, done } = entry;
        match accept(&mut parts, call, Some(done)) {
            Ok(_) => Volume { parts },
            Err(_) => unreachable!(),
        }
    }

    /// Returns the volume unchanged.
    pub fn release(self) -> Volume
        ensures { result ≡ self }
    {
        Volume { parts: self.parts }
    }
}
