//! Files that lose a name.
ghost use Rattle.std.specs.Prelude.{◌≡◌};
ghost use Rattle.vol_mounted.specs.Losses.{opened_at};

use crate::orphan::Orphan;
use crate::refusal::MountedRefusal;
use crate::scene::Scene;
use crate::table::NodeTable;
use fuse_words::{Attributes, Header, Operation};
use vol_dir::Refusal;
use vol_serve::attributes::node_attributes;
use vol_serve::nodes::{look_up, read};

/// A file that will lose a name.
#[derive(Drop)]
pub(crate) struct Loss {
    /// Its i-number.
    pub(crate) i: u16,
    /// The file as it will be kept in memory, if this is its last name and the file is open.
    pub(crate) orphan: Option<Orphan>,
}

impl Scene<'_> {
    ghost use Rattle.vol_dir.specs.Tree.{tree};
    ghost use Rattle.vol_serve.specs.Attributes.{attributes_in};
    ghost use Rattle.std.specs.Prelude.{IfOk};
    ghost use Rattle.std.specs.Prelude.{◌≡◌};
    ghost use Rattle.std.specs.Option.{option_map_or, option_and_then};
    ghost use Rattle.vol_mounted.specs.Losses.{Keeps, lost_bytes, lost_node, lost_file, kept_at, kept_bytes, kept_size, loss_size, node_named, node_of, file_of};
    ghost use Rattle.vol_mounted.specs.Orphans.{size_if};
    ghost use Rattle.vol_mounted.specs.Scenes.{sight_of};

    /// Returns the file that loses a name through an operation, if any: the file of UNLINK, or the one that a rename replaces. If the file is open,
    /// takes memory for its bytes, at most `spare`.
    #[tactic(auto, unfolding(crate::specs::Losses::lost_node))]
    pub(crate) fn loss(
        &self,
        header: &Header,
        operation: &Operation<'_>,
        spare: usize,
    ) -> Result<Option<Loss>, MountedRefusal>
        ensures kept { Keeps loss_size spare (lost_bytes (sight_of self.now) header.now operation.now) result }
        ensures node { IfOk result (λ loss. node_of loss ≡ lost_node (sight_of self.now) header.now operation.now) }
        ensures file { IfOk result (λ loss. file_of loss ≡ lost_file (sight_of self.now) header.now operation.now) }
    {
        match operation {
            Operation::Unlink { name } => self.loss_of(header.node, name.as_slice(), spare),
            Operation::Rename {
                directory,
                new_name,
                ..
            }
            | Operation::Rename2 {
                directory,
                new_name,
                ..
            } => self.loss_of(*directory, new_name.as_slice(), spare),
            _ => Ok(None),
        }
    }

    /// Returns the file that loses a name in a directory, if there is one.
    fn loss_of(
        &self,
        directory: u64,
        name: &[u8],
        spare: usize,
    ) -> Result<Option<Loss>, MountedRefusal>
        ensures kept { Keeps loss_size spare (option_map_or (kept_bytes (sight_of self.now)) (node_named (sight_of self.now) directory name.now) 0) result }
        ensures node { IfOk result (λ loss. node_of loss ≡ node_named (sight_of self.now) directory name.now) }
        ensures file { IfOk result (λ loss. file_of loss ≡ option_and_then (kept_at (sight_of self.now)) (node_named (sight_of self.now) directory name.now)) }
    {
        let Some(dir) = self.nodes.i_number(self.geometry.edition, directory) else {
            return Ok(None);
        };
        match look_up(self.volume.image(), self.geometry, dir, name) {
            Ok(i) => {
                let orphan = self.orphan(i, spare)?;
                Ok(Some(Loss { i, orphan }))
            }
            Err(_) => Ok(None),
        }
    }

    /// Returns file `i` as it will be kept in memory, if it is open and loses its last name.
    fn orphan(&self, i: u16, spare: usize) -> Result<Option<Orphan>, MountedRefusal>
        ensures size { Keeps size_if spare (kept_bytes (sight_of self.now) i) result }
        ensures file { IfOk result (λ file. file ≡ kept_at (sight_of self.now) i) }
    {
        let opened = opened_at(self.nodes, i);
        let Ok(attributes) = node_attributes(self.volume.image(), self.geometry, i) else {
            return Ok(None);
        };
        if opened == 0 || attributes.links != 1 || attributes.mode / 0o10000 != 8 {
            return Ok(None);
        }
        let size = attributes.size as usize;
        if size > spare {
            return Err(MountedRefusal::Call(Refusal::NoSpace));
        }
        let mut content = vec![in self.alloc; 0u8; size]?;
        let _ = read(self.volume.image(), self.geometry, i, 0, &mut content);
        Ok(Some(Orphan {
            node: self.nodes.node_number(self.geometry.edition, i),
            attributes: Attributes {
                links: 0,
                ..attributes
            },
            content,
            opened,
        }))
    }
}

/// Returns the number of times that the file of i-number `i` is open.
fn opened_at(nodes: &NodeTable, i: u16) -> u32
    ensures { result ≡ opened_at nodes.now i }
{
    match nodes.known(i) {
        Some(known) => known.opened,
        None => 0,
    }
}
