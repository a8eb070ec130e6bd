//! The volume and the nodes that the kernel knows, at a given time.
ghost use Rattle.std.specs.Prelude.{◌≡◌, ◌∷◌, ◌++◌, IfOk};
ghost use Rattle.vol_layout.specs.Geometry.{Fits, geometry_of};

use crate::owner::Owner;
use crate::refusal::MountedRefusal;
use crate::table::NodeTable;
use pdp_words::Bytes;
use std::alloc::{AllocError, Global};
use vol_dir::{Cred, is_plain, walk};
use vol_layout::Geometry;
use vol_layout::slot::NAME;
use vol_serve::errno::RequestRefusal;
use vol_serve::nodes::{NodeFault, look_up, stat};
use vol_volume::{Stat, Volume};

/// The volume and the nodes that the kernel knows, at a given time. The calls and the reply of a request are made from this.
#[derive(Drop)]
pub(crate) struct Scene<'a> {
    /// The allocator.
    pub(crate) alloc: Global,
    /// The present volume.
    pub(crate) volume: &'a Volume,
    /// The volume's geometry.
    pub(crate) geometry: &'a Geometry,
    /// The nodes that the kernel knows.
    pub(crate) nodes: &'a NodeTable,
    /// The user that all nodes are shown as, if any.
    pub(crate) owner: Option<Owner>,
    /// The current time, in seconds since the beginning of 1970.
    pub(crate) moment: u32,
    pub(crate) ghost fits: { Fits geometry.now volume.now.image },
    pub(crate) ghost sizes: { geometry.now ≡ geometry_of volume.now.edition volume.now.image },
}

impl Scene<'_> {
    ghost use Rattle.vol_dir.specs.Tree.{tree};
    ghost use Rattle.vol_serve.specs.Nodes.{look_up};
    ghost use Rattle.vol_mounted.specs.Plans.{path_at, name_at, stat_at};
    ghost use Rattle.vol_mounted.specs.Refusals.{Gives, of_nodes};
    ghost use Rattle.vol_mounted.specs.Replies.{number_at};
    ghost use Rattle.vol_mounted.specs.Scenes.{sight_of};

    /// Returns the i-number of the node with this number, or Stale if no node has this number now.
    pub(crate) fn number(&self, node: u64) -> Result<u16, MountedRefusal>
        ensures { result ≡ number_at (sight_of self.now) node }
    {
        match self.nodes.i_number(self.geometry.edition, node) {
            Some(i) => Ok(i),
            None => Err(MountedRefusal::STALE),
        }
    }

    /// Returns the path of node `i`, or Stale if its last known names no longer lead to it.
    pub(crate) fn path(&self, i: u16) -> Result<Bytes, MountedRefusal>
        ensures { Gives (path_at (sight_of self.now) i) result }
    {
        let root = self.geometry.edition.constants().root;
        let Some(path) = self.nodes.climb(self.alloc, root, i)? else {
            return Err(MountedRefusal::STALE);
        };
        match walk(
            self.volume.image(),
            self.geometry,
            Cred::ROOT,
            path.as_slice(),
        ) {
            Ok(found) if found == i => Ok(path),
            _ => Err(MountedRefusal::STALE),
        }
    }

    /// Returns the path of a name in directory `dir`.
    pub(crate) fn path_of_name(&self, dir: u16, name: &[u8]) -> Result<Bytes, MountedRefusal>
        ensures { Gives (name_at (sight_of self.now) dir name.now) result }
    {
        if name.len() > NAME {
            return Err(MountedRefusal::from(NodeFault::LongName));
        }
        if !is_plain(name) {
            return Err(MountedRefusal::Request(RequestRefusal::Malformed));
        }
        Ok(with_name(self.path(dir)?, name)?)
    }

    /// Returns the node that a name leads to in a directory.
    pub(crate) fn find(&self, dir: u16, name: &[u8]) -> Result<u16, MountedRefusal>
        ensures { result ≡ of_nodes (look_up (tree self.now.geometry.now self.now.volume.now.image) dir name.now) }
    {
        Ok(look_up(self.volume.image(), self.geometry, dir, name)?)
    }

    /// Returns the Stat of node `i`, or Stale if no node has this number.
    pub(crate) fn stat(&self, i: u16) -> Result<Stat, MountedRefusal>
        ensures { result ≡ stat_at (sight_of self.now) i }
    {
        match stat(self.volume.image(), self.geometry, i) {
            Some(stat) => Ok(stat),
            None => Err(MountedRefusal::STALE),
        }
    }
}

/// Returns a path followed by a name.
fn with_name(path: Bytes, name: &[u8]) -> Result<Bytes, AllocError>
    ensures { IfOk result (λ longer. longer ≡ path ++ 47 ∷ name.now) }
{
    let mut bytes = path.into_vec();
    bytes.push(b'/')?;
    bytes.extend_from_slice(name)?;
    Ok(Bytes::from_vec(bytes))
}
