//! Permissions of i-nodes.
ghost use Rattle.std.specs.Prelude.{◌≡◌, ◌*◌, ◌≤◌, Some};
ghost use Rattle.vol_layout.specs.Geometry.{Fits};
ghost use Rattle.vol_dir.specs.Tree.{Node, node_of};
ghost use Rattle.vol_dir.specs.Access.{bit_of, has_bit, grants, grants_at};

use crate::cred::Cred;
use pdp_words::Image;
use vol_layout::Geometry;
use vol_layout::i_list::{mode, owner_of};

/// An access to a file or directory.
#[derive(Clone, Copy)]
pub enum Access {
    /// Reading a file, or listing a directory.
    Read,
    /// Writing a file, or changing a directory's entries.
    Write,
    /// Running a file, or looking a name up in a directory.
    Execute,
}

impl Access {
    /// Returns the bit for this access in a group of three permission bits.
    fn bit(self) -> u16
        ensures bit { result ≡ bit_of self }
        ensures low { 1 ≤ result }
        ensures high { result ≤ 4 }
    {
        match self {
            Access::Read => 4,
            Access::Write => 2,
            Access::Execute => 1,
        }
    }
}

/// True if i-node `i`, an i-number of the volume, grants an access. User 0 gets every access. The first three permission bits apply to the owner, the
/// next three to the owner's group, and the last three to all others (Lions on access).
#[tactic(auto, using(crate::proofs::GrantedNodes::node_grants))]
pub fn grants(image: &Image, geometry: &Geometry, i: u16, access: Access, cred: Cred) -> bool
    requires fits { Fits geometry.now image.now }
    requires first { 1 ≤ i }
    requires last { i ≤ geometry.now.last_inode }
    ensures stored { result ≡ grants_at geometry.now image.now i (bit_of access) cred }
    ensures node { (node : Node) → node_of geometry.now image.now i ≡ Some node → result ≡ grants (bit_of access) cred node }
{
    grants_at(image, geometry, i, access, cred)
}

/// Does the work of [`grants`].
#[tactic(auto, using(vol_layout::proofs::InodeLaws::inode_mode))]
fn grants_at(image: &Image, geometry: &Geometry, i: u16, access: Access, cred: Cred) -> bool
    requires fits { Fits geometry.now image.now }
    requires first { 1 ≤ i }
    requires last { i ≤ geometry.now.last_inode }
    ensures { result ≡ grants_at geometry.now image.now i (bit_of access) cred }
{
    if cred.uid == 0 {
        return true;
    }
    let permissions = mode(image, geometry, i).permissions();
    let bit = access.bit();
    let owner = owner_of(image, geometry, i);
    if cred.uid == owner.uid {
        has_bit(permissions, 64 * bit)
    } else if cred.gid == owner.gid {
        has_bit(permissions, 8 * bit)
    } else {
        has_bit(permissions, bit)
    }
}

/// True if the permissions have the bit with this value.
fn has_bit(permissions: u16, value: u16) -> bool
    requires { 1 ≤ value }
    ensures { result ≡ has_bit permissions value }
{
    permissions / value % 2 == 1
}
