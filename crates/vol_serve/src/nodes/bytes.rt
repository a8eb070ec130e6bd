//! The bytes of a regular file.
ghost use Rattle.std.specs.Prelude.{◌≡◌, ◌≤◌, length, Ok, Err, OnOk, MatchResult};
ghost use Rattle.vol_layout.specs.Body.{body};
ghost use Rattle.vol_layout.specs.Geometry.{Fits};
ghost use Rattle.vol_dir.specs.Tree.{tree};
ghost use Rattle.vol_serve.specs.Nodes.{bytes_in, read_in, count_of, filled};

use crate::nodes::fault::NodeFault;
use crate::nodes::stats::node_kind;
use pdp_words::Image;
use vol_layout::{Geometry, Kind};

/// Returns `Ok` if node `i` is a regular file.
fn regular(image: &Image, geometry: &Geometry, i: u16) -> Result<(), NodeFault>
    requires fits { Fits geometry.now image.now }
    ensures bytes { MatchResult result
        (λ _. bytes_in (tree geometry.now image.now) i ≡ Ok (body geometry.now image.now i))
        (λ fault. bytes_in (tree geometry.now image.now) i ≡ Err fault) }
    ensures first { OnOk result (1 ≤ i) }
    ensures last { OnOk result (i ≤ geometry.now.last_inode) }
{
    match node_kind(image, geometry, i) {
        None => Err(NodeFault::Stale),
        Some(Kind::Regular) => Ok(()),
        Some(_) => Err(NodeFault::NotRegular),
    }
}

/// Reads bytes of regular file `i` from byte `offset` into `buffer`, until the file or the buffer ends, and returns their number, which is 0 at the
/// end of the file and past it. The rest of `buffer` is unchanged. Holes read as zeros.
///
/// Returns `Stale` if no node has this number, then `NotRegular`; `buffer` is then unchanged.
///
/// Takes no memory. Costs as much as [`vol_file::read`].
pub fn read(
    image: &Image,
    geometry: &Geometry,
    i: u16,
    offset: u64,
    buffer: &mut [u8],
) -> Result<usize, NodeFault>
    requires fits { Fits geometry.now image.now }
    ensures count { result ≡ count_of (read_in (tree geometry.now image.now) i offset (length buffer.old)) }
    ensures buffer { buffer.new ≡ filled (read_in (tree geometry.now image.now) i offset (length buffer.old)) buffer.old }
{
    regular(image, geometry, i)?;
    match u32::try_from(offset) {
        Ok(offset) => Ok(vol_file::read(image, geometry, i, offset, buffer)),
        Err(_) => Ok(0),
    }
}
