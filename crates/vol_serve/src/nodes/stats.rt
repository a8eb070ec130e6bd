//! The attributes of a node.
ghost use Rattle.std.specs.Prelude.{◌≡◌, None, Some, MatchOption};
ghost use Rattle.vol_layout.specs.Geometry.{Fits};
ghost use Rattle.vol_dir.specs.Tree.{tree};
ghost use Rattle.vol_serve.specs.Nodes.{stat_in, special_in, HasNode};

use pdp_words::Image;
use vol_layout::i_list::kind;
use vol_layout::{Geometry, Kind, inode};
use vol_volume::Stat;

/// The device of a special file.
#[derive(Clone, Copy)]
pub struct SpecialFile {
    /// True for a block special file, false for a character special file.
    pub is_block: bool,
    /// The device's major number.
    pub major: u8,
    /// The device's minor number.
    pub minor: u8,
}

/// Returns the kind of node `i`, or `None` if no node has this number.
#[tactic(auto, using(crate::proofs::HeldNodes::none_zero, crate::proofs::HeldNodes::none_above, crate::proofs::HeldNodes::none_free, crate::proofs::HeldNodes::none_odd, crate::proofs::HeldNodes::held))]
pub(crate) fn node_kind(image: &Image, geometry: &Geometry, i: u16) -> Option<Kind>
    requires { Fits geometry.now image.now }
    ensures { MatchOption result ((tree geometry.now image.now).nodes i ≡ None) (HasNode geometry.now image.now i) }
{
    if i == 0 || i > geometry.last_inode {
        return None;
    }
    match kind(image, geometry, i) {
        Kind::Free | Kind::Odd => None,
        kind => Some(kind),
    }
}

/// Returns the attributes of node `i`, or `None` if no node has this number: it is outside the volume, its i-node is free, or the i-node's kind isn't
/// one of the edition's.
pub fn stat(image: &Image, geometry: &Geometry, i: u16) -> Option<Stat>
    requires { Fits geometry.now image.now }
    ensures { result ≡ stat_in (tree geometry.now image.now) i }
{
    let kind = node_kind(image, geometry, i)?;
    let node = inode(image, geometry, i);
    Some(Stat {
        number: i,
        kind,
        permissions: node.mode.permissions(),
        links: node.links,
        uid: node.uid,
        gid: node.gid,
        size: node.size,
        accessed: node.accessed,
        modified: node.modified,
        changed: node.changed,
    })
}

/// Returns the device of special file `i`, or `None` if it isn't one. Of the seventh edition's multiplexor types, 070000 counts
/// as a block and 030000 as a character special file.
pub fn special_file(image: &Image, geometry: &Geometry, i: u16) -> Option<SpecialFile>
    requires { Fits geometry.now image.now }
    ensures { result ≡ special_in (tree geometry.now image.now) i }
{
    match node_kind(image, geometry, i)? {
        Kind::Special => Some(device_at(image, geometry, i)),
        _ => None,
    }
}

/// Returns the device of special file `i`.
fn device_at(image: &Image, geometry: &Geometry, i: u16) -> SpecialFile
    requires fits { Fits geometry.now image.now }
    requires node { HasNode geometry.now image.now i Kind.Special }
    ensures { special_in (tree geometry.now image.now) i ≡ Some result }
{
    let node = inode(image, geometry, i);
    let number = node.device_number();
    SpecialFile {
        is_block: node.mode.is_block(),
        major: (number / 256) as u8,
        minor: (number % 256) as u8,
    }
}
