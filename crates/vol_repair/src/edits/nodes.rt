//! Edits of i-nodes.
ghost use Rattle.std.specs.Prelude.{◌≤◌};
ghost use Rattle.vol_layout.specs.Geometry.{Fits};

use crate::claims::size_limit;
use pdp_words::Image;
use vol_layout::i_list::{kind, size};
use vol_layout::{Geometry, Inode, Kind, Mode, clear_inode, put_inode, put_size};

/// The permissions of a root that is made, octal.
const ROOT_PERMISSIONS: u16 = 0o777;

/// Clears the i-nodes that no volume has, cuts sizes to the limit, and makes the root a directory.
pub(super) fn mend_nodes(image: &mut Image, geometry: &Geometry, now: u32)
    requires { Fits geometry.now image.old }
    ensures { Fits geometry.now image.new }
{
    for before in 0..geometry.last_inode {
        mend_node(image, geometry, before + 1);
    }
    let root = geometry.edition.constants().root;
    if kind(image, geometry, root) != Kind::Directory {
        put_directory(image, geometry, root, ROOT_PERMISSIONS, now);
    }
}

/// Clears i-node `i` if no volume has it so, and cuts its size to the limit.
fn mend_node(image: &mut Image, geometry: &Geometry, i: u16)
    requires fits { Fits geometry.now image.old }
    requires first { 1 ≤ i }
    requires last { i ≤ geometry.now.last_inode }
    ensures { Fits geometry.now image.new }
{
    let kind = kind(image, geometry, i);
    let is_reserved = i < geometry.edition.constants().root && kind != Kind::Regular;
    if kind == Kind::Odd || is_reserved {
        if kind != Kind::Free {
            clear_inode(image, geometry, i);
        }
        return;
    }
    let limit = size_limit(image, geometry, i);
    if (kind == Kind::Regular || kind == Kind::Directory) && size(image, geometry, i) > limit {
        put_size(image, geometry, i, limit);
    }
}

/// Makes i-node `i` an empty directory of user 0, without entries.
#[tactic(auto, using(vol_layout::proofs::NewInodes::new_storable))]
pub(super) fn put_directory(
    image: &mut Image,
    geometry: &Geometry,
    i: u16,
    permissions: u16,
    now: u32,
)
    requires fits { Fits geometry.now image.old }
    requires first { 1 ≤ i }
    requires last { i ≤ geometry.now.last_inode }
    ensures { Fits geometry.now image.new }
{
    let mode = Mode::directory(geometry.edition, permissions);
    let node = Inode::new(geometry.edition, mode, 0, 0, 0, now);
    put_inode(image, geometry, i, &node);
}
