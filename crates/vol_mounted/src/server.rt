//! The server of a mounted volume.
ghost use Rattle.std.specs.Prelude.{◌≡◌};

use crate::calls::Calls;
use crate::host::Host;
use crate::orphan::Orphans;
use crate::owner::Owner;
use crate::refusal::MountedRefusal;
use crate::scene::Scene;
use crate::table::NodeTable;
use std::alloc::{AllocError, Global};
use vol_batch::make_all;
use vol_volume::Volume;

/// The number of bytes of requests after which the journal is cut.
const MOST_WEIGHT: usize = 16 << 20;

/// A mounted volume that is served.
#[derive(Drop)]
pub struct MountedServer {
    /// The volume.
    pub(crate) volume: Volume,
    /// The nodes that the kernel knows.
    pub(crate) nodes: NodeTable,
    /// The files without a name that are still open.
    pub(crate) orphans: Orphans,
    /// The user that all nodes are shown as, if any.
    pub(crate) owner: Option<Owner>,
    /// True if a call was made since the volume was saved.
    pub(crate) is_changed: bool,
    /// The approximate number of bytes of the requests whose calls are in the journal.
    pub(crate) weight: usize,
}

impl MountedServer {
    ghost use Rattle.std.specs.Prelude.{ℕ, List, length, IfOk, OnOk, IfErr};
    ghost use Rattle.vol_serve.specs.Messages.{Grows};
    ghost use Rattle.vol_mounted.specs.Turns.{IsSaved, IsCut};
    ghost use Rattle.vol_batch.specs.Batch.{AreMade};
    ghost use Rattle.vol_mounted.specs.Scenes.{sight_of};
    ghost use Rattle.vol_mounted.specs.Servers.{volume_in, owner_in, nodes_in, spare_in, sight_at, IsStopped, IsNoted};

    /// Returns a server of a volume. With an owner, all nodes are shown as the owner's, and new ones belong to user 0. Takes two MiB.
    pub fn new(
        alloc: Global,
        volume: Volume,
        owner: Option<Owner>,
    ) -> Result<MountedServer, AllocError>
        ensures volume { IfOk result (λ server. volume_in server ≡ volume) }
        ensures owner { IfOk result (λ server. owner_in server ≡ owner) }
        ensures records { IfOk result (λ server. length (nodes_in server) ≡ 65536) }
    {
        Ok(MountedServer {
            volume,
            nodes: NodeTable::new(alloc)?,
            orphans: Orphans::new(alloc),
            owner,
            is_changed: false,
            weight: 0,
        })
    }

    /// Returns the present volume.
    pub fn volume(&self) -> &Volume
        ensures { result.now ≡ volume_in self.now }
    {
        &self.volume
    }

    /// Returns the volume.
    pub fn into_volume(self) -> Volume
        ensures { result ≡ volume_in self }
    {
        self.volume
    }

    /// Returns the number of further bytes that files without a name can take. All of them together can take at most as many bytes as the image has.
    pub(crate) fn spare(&self) -> usize
        ensures { result ≡ spare_in self.now }
    {
        self.orphans.spare(self.volume.image().len())
    }

    /// Returns the volume and the nodes that the kernel knows, at a given time.
    pub(crate) fn scene(&self, alloc: Global, now: u32) -> Scene<'_>
        ensures { sight_of result ≡ sight_at self.now now }
    {
        Scene {
            alloc,
            volume: &self.volume,
            geometry: self.volume.geometry(),
            nodes: &self.nodes,
            owner: self.owner,
            moment: now,
        }
    }

    /// Makes calls in order, up to the first that is refused.
    #[tactic(auto, unfolding(vol_batch::specs::Batch::AreMade), using(crate::proofs::Makings::made_size, crate::proofs::Makings::stopped_size))]
    pub(crate) fn make(&mut self, alloc: Global, calls: Calls) -> Result<(), MountedRefusal>
        ensures made { OnOk result (AreMade self.old.volume calls self.new.volume) }
        ensures stopped { IfErr result (IsStopped self.old.volume calls self.new.volume) }
        ensures size { length self.new.volume.image ≡ length self.old.volume.image }
        ensures nodes { self.new.nodes ≡ self.old.nodes }
        ensures orphans { self.new.orphans ≡ self.old.orphans }
        ensures owner { self.new.owner ≡ self.old.owner }
        ensures weight { self.new.weight ≡ self.old.weight }
        ensures noted { IsNoted self.old self.new }
    {
        let calls = calls.into_vec();
        if calls.is_empty() {
            return Ok(());
        }
        self.is_changed = true;
        self.volume.check();
        let made = make_all(alloc, &mut self.volume, calls);
        self.volume.check();
        match made {
            Ok(()) => Ok(()),
            Err((refusal, _)) => Err(MountedRefusal::Call(refusal)),
        }
    }

    /// Saves the image, if it was changed since it was last saved. Returns false if it couldn't be saved.
    pub(crate) fn save<H: Host>(&mut self, host: &mut H) -> bool
        ensures { (images : List (List ℕ)) × Grows (H.saved host.old) (H.saved host.new) images × IsSaved self.old self.new images result }
    {
        if !self.is_changed {
            return true;
        }
        if !host.save(self.volume.image()) {
            return false;
        }
        self.is_changed = false;
        true
    }

    /// Counts the bytes of a request, and cuts the journal once there are [`MOST_WEIGHT`].
    pub(crate) fn cut_if_heavy(&mut self, request: &[u8])
        ensures { IsCut self.old self.new (length request.now) }
    {
        self.weight = self.weight.saturating_add(request.len());
        if self.weight >= MOST_WEIGHT {
            self.weight = 0;
            // This could fail only if a record's number reached 2^64.
            let _ = self.volume.cut();
        }
    }
}
