//! A copy of the image that replays records.
ghost use Rattle.std.specs.Prelude.{◌≡◌, ◌↔◌, ◌++◌, ◌∷◌, [], IsTrue, IfOk};
ghost use Rattle.vol_views.specs.LogRule.{first_log};
ghost use Rattle.vol_views.specs.declared.history.LogEntry.TheVariants.{Made};
ghost use Rattle.vol_volume.specs.Answer.{Answers};
ghost use Rattle.vol_volume.specs.Journal.{MayFollow};
ghost use Rattle.vol_views.specs.States.{state_of};

use crate::ghost_list::{GhostList, list_of, longer};
use crate::history::LogEntry;
use crate::log_rule::{Append, Begin};
use pdp_words::Image;
use std::alloc::{AllocError, Global};
use std::marker::Model;
use vol_dir::Refusal;
use vol_layout::Geometry;
use vol_volume::{Query, Record, Reply, Volume, apply, ask_image};

/// A copy of a volume's image that replays records. It caches the geometry and the number of free blocks, so applying a record doesn't recount them.
/// Contracts see the volume that it was copied from and the records applied since; it always reads as the state after these records.
#[derive(Drop)]
pub struct Version {
    geometry: Geometry,
    image: Image,
    free: u32,
    trace: GhostList<LogEntry>,
}

impl Model for Version {
    ghost use Rattle.std.specs.Prelude.{◌≡◌, List};
    ghost use Rattle.vol_layout.specs.Geometry.{geometry_of};
    ghost use Rattle.vol_dir.specs.Tree.{state, free_count, shapes};
    ghost use Rattle.vol_judge.specs.Sound.{IsSound};
    ghost use Rattle.vol_views.specs.declared.history.LogEntry.{LogEntry};
    ghost use Rattle.vol_views.specs.States.{state_of};

    ghost Value = { List LogEntry };

    ghost view = { λ v. v.trace.log };

    ghost invariant = { λ v. IsSound v.geometry.edition v.image
        × (v.geometry ≡ geometry_of v.geometry.edition v.image)
        × (v.free ≡ free_count v.geometry (shapes v.geometry v.image))
        × (state v.geometry v.image ≡ state_of v.trace.log) };
}

impl Version {
    /// Copies a volume as it is.
    ///
    /// Takes memory for the image, and costs a copy of it.
    pub fn new(alloc: Global, volume: &Volume) -> Result<Version, AllocError>
        ensures { IfOk result (λ version. version ≡ first_log volume.now) }
    {
        volume.check();
        let bytes = Vec::from_slice(alloc, volume.image().as_bytes())?;
        Ok(Version {
            geometry: *volume.geometry(),
            image: Image::from_bytes(bytes),
            free: volume.free_blocks(),
            trace: list_of::<LogEntry, Volume, Begin>(volume),
        })
    }

    /// Applies a record and returns true if the record can come next; otherwise returns false and leaves the image as it is.
    ///
    /// Takes no memory. Costs as much as [`vol_volume::apply`].
    pub fn apply(&mut self, entry: &Record) -> bool
        ensures applied { self.new ≡ self.old ++ Made entry.now ∷ [] }
        ensures may_follow { IsTrue result ↔ MayFollow (state_of self.old) entry.now }
    {
        let is_next = apply(&mut self.image, &self.geometry, &mut self.free, entry);
        self.trace = longer::<LogEntry, Record, Append>(&self.trace, entry);
        is_next
    }

    /// Returns the reply to a query, or a refusal as [`Volume::ask`] does.
    ///
    /// Takes as much memory and time as [`vol_volume::ask_image`].
    pub fn ask(&self, alloc: Global, query: &Query) -> Result<Reply, Refusal>
        ensures { Answers (state_of self.now).tree query.now result }
    {
        ask_image(alloc, &self.image, &self.geometry, query)
    }
}
