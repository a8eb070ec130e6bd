//! The nodes that a kernel knows, each by its number.
ghost use Rattle.std.specs.Prelude.{◌≡◌, ◌∷◌, ◌++◌, OnOk};

use crate::known::KnownNode;
use fuse_words::ROOT;
use pdp_words::Bytes;
use std::alloc::{AllocError, Global};
use std::marker::Model;
use vol_layout::{Edition, Slot};

/// The number of possible i-numbers.
const NODES: usize = 65_536;

/// The records of all i-numbers. Contracts see it as the list of the records.
#[derive(Drop)]
pub struct NodeTable {
    nodes: Vec<KnownNode>,
}

impl Model for NodeTable {
    ghost use Rattle.std.specs.Prelude.{List};
    ghost use Rattle.vol_mounted.specs.declared.known.KnownNode.{KnownNode};

    ghost Value = { List KnownNode };

    ghost view = { λ table. table.nodes.items };
}

impl NodeTable {
    ghost use Rattle.std.specs.Prelude.{◌≡◌, ◌≤◌, [], length, slice_get, IfSome, IfOk};
    ghost use Rattle.vol_mounted.specs.Numbers.{node_number, i_number, with_known, met, born, opened, closed};
    ghost use Rattle.vol_mounted.specs.Paths.{climb};

    /// Returns a table of nodes that have not been found yet.
    pub(crate) fn new(alloc: Global) -> Result<NodeTable, AllocError>
        ensures { IfOk result (λ table. length table ≡ 65536) }
    {
        let nodes = vec![in alloc; KnownNode::UNMET; NODES]?;
        Ok(NodeTable { nodes })
    }

    /// Returns the number of i-numbers in the table.
    pub(crate) fn count(&self) -> usize
        ensures { result ≡ length self.now }
    {
        self.nodes.as_slice().len()
    }

    /// Returns the record of i-number `i`.
    pub(crate) fn known(&self, i: u16) -> Option<KnownNode>
        ensures { result ≡ slice_get self.now i }
    {
        self.nodes.get(usize::from(i)).copied()
    }

    /// Returns the kernel's number of the node with i-number `i`.
    pub(crate) fn node_number(&self, edition: Edition, i: u16) -> u64
        ensures { result ≡ node_number edition self.now i }
    {
        if i == edition.constants().root {
            return ROOT;
        }
        let birth = match self.known(i) {
            Some(known) => known.birth,
            None => 0,
        };
        0x1_0000 * u64::from(birth) + u64::from(i)
    }

    /// Returns the i-number of the node with number `node`, or `None` if no node has this number now.
    pub(crate) fn i_number(&self, edition: Edition, node: u64) -> Option<u16>
        ensures exact { result ≡ i_number edition self.now node }
        ensures back { IfSome result (λ i. node_number edition self.now i ≡ node) }
    {
        if node == ROOT {
            return Some(edition.constants().root);
        }
        let i = (node % 0x1_0000) as u16;
        if self.node_number(edition, i) == node {
            Some(i)
        } else {
            None
        }
    }

    /// Records the name of i-number `i` in a directory.
    pub(crate) fn meet(&mut self, i: u16, directory: u16, name: &[u8])
        requires { length name.now ≤ 14 }
        ensures { self.new ≡ met self.old i directory name.now }
    {
        if let Some(known) = self.nodes.get_mut(usize::from(i)) {
            known.directory = directory;
            known.slot = Slot::new(i, name);
        }
    }

    /// Records that i-number `i` was allocated again: none of the kernel's numbers leads to the new node, and it isn't open.
    pub(crate) fn bear(&mut self, i: u16)
        ensures { self.new ≡ with_known self.old i born }
    {
        if let Some(known) = self.nodes.get_mut(usize::from(i)) {
            if known.birth < u32::MAX {
                known.birth += 1;
            }
            known.opened = 0;
        }
    }

    /// Counts one more open of the file of i-number `i`.
    pub(crate) fn open(&mut self, i: u16)
        ensures { self.new ≡ with_known self.old i opened }
    {
        if let Some(known) = self.nodes.get_mut(usize::from(i)) {
            known.opened = known.opened.saturating_add(1);
        }
    }

    /// Counts one close of the file of i-number `i`.
    pub(crate) fn close(&mut self, i: u16)
        ensures { self.new ≡ with_known self.old i closed }
    {
        if let Some(known) = self.nodes.get_mut(usize::from(i)) {
            known.opened = known.opened.saturating_sub(1);
        }
    }

    /// Returns the path from the root to node `i`, by the last known names. Returns `None` if they don't lead up to the root. The names may be
    /// outdated, so the path has to be checked by a walk.
    pub(crate) fn climb(
        &self,
        alloc: Global,
        root: u16,
        i: u16,
    ) -> Result<Option<Bytes>, AllocError>
        ensures { IfOk result (λ path. path ≡ climb self.now root (length self.now) i []) }
    {
        let mut path = Vec::new(alloc);
        let mut at = i;
        'steps: for step in 0..self.count() {
            if at == root {
                return Ok(Some(Bytes::from_vec(path)));
            }
            let Some(known) = self.known(at) else {
                return Ok(None);
            };
            if known.slot.inode == 0 {
                return Ok(None);
            }
            put_in_front(&mut path, known.slot.name())?;
            at = known.directory;
        }
        Ok(None)
    }
}

/// Inserts a slash and a name at the beginning of a path.
fn put_in_front(path: &mut Vec<u8>, name: &[u8]) -> Result<(), AllocError>
    ensures { OnOk result (path.new.items ≡ 47 ∷ (name.now ++ path.old.items)) }
{
    let len = path.len();
    path.push(b'/')?;
    path.extend_from_slice(name)?;
    path.rotate_left(len);
    Ok(())
}
