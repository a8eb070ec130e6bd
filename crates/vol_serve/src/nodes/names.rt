//! The names in a directory.
ghost use Rattle.std.specs.Prelude.{◌≡◌, Ok, Err, IfOk, OnOk, MatchResult};
ghost use Rattle.vol_layout.specs.Geometry.{Fits};
ghost use Rattle.vol_dir.specs.Entries.{slots, IsDirectory, entry_at, slot_count};
ghost use Rattle.vol_dir.specs.Names.{names_of};
ghost use Rattle.vol_dir.specs.Scan.{GoesOn};
ghost use Rattle.vol_dir.specs.Tree.{tree};
ghost use Rattle.vol_serve.specs.Nodes.{names_in, look_up};

use crate::nodes::fault::NodeFault;
use crate::nodes::stats::node_kind;
use pdp_words::Image;
use vol_dir::{find, next_entry};
use vol_layout::slot::NAME;
use vol_layout::{Geometry, Kind, Slot};

/// Returns `Ok` if node `dir` is a directory.
fn directory(image: &Image, geometry: &Geometry, dir: u16) -> Result<(), NodeFault>
    requires fits { Fits geometry.now image.now }
    ensures names { MatchResult result
        (λ _. names_in (tree geometry.now image.now) dir ≡ Ok (names_of (slots geometry.now image.now dir)))
        (λ fault. names_in (tree geometry.now image.now) dir ≡ Err fault) }
    ensures directory { OnOk result (IsDirectory geometry.now image.now dir) }
{
    match node_kind(image, geometry, dir) {
        None => Err(NodeFault::Stale),
        Some(Kind::Directory) => Ok(()),
        Some(_) => Err(NodeFault::NotDirectory),
    }
}

/// Returns the number of the node that `name` leads to in directory `dir`. If several entries have the name, the first one counts; `.` and `..` are
/// entries like any other.
///
/// Returns `Stale` if no node has the number `dir`, then `NotDirectory`, then `LongName`, then `NoEntry`; last, `Stale` if the entry leads to no
/// node, as may happen in a damaged image: a listing shows the name, so it isn't missing.
///
/// Takes no memory. Costs as much as [`find`].
pub fn look_up(image: &Image, geometry: &Geometry, dir: u16, name: &[u8]) -> Result<u16, NodeFault>
    requires fits { Fits geometry.now image.now }
    ensures { result ≡ look_up (tree geometry.now image.now) dir name.now }
{
    directory(image, geometry, dir)?;
    if name.len() > NAME {
        return Err(NodeFault::LongName);
    }
    let i = find(image, geometry, dir, name).ok_or(NodeFault::NoEntry)?;
    match node_kind(image, geometry, i) {
        Some(_) => Ok(i),
        None => Err(NodeFault::Stale),
    }
}

/// Returns the first entry of directory `dir` in slot `from` or after it, with its slot, or `None` after the last. A listing
/// continues in the slot after the returned one, so it visits each slot once even while names are added and removed. The bytes
/// after the name's first zero byte are unspecified.
///
/// Returns `Stale` if no node has the number `dir`, then `NotDirectory`. The entry's number may belong to no node.
///
/// Takes no memory. Costs as much as [`next_entry`]: holes are skipped, however large the directory is.
pub fn next_name(
    image: &Image,
    geometry: &Geometry,
    dir: u16,
    from: u32,
) -> Result<Option<(u32, Slot)>, NodeFault>
    requires fits { Fits geometry.now image.now }
    ensures fault { MatchResult result
        (λ _. names_in (tree geometry.now image.now) dir ≡ Ok (names_of (slots geometry.now image.now dir)))
        (λ fault. names_in (tree geometry.now image.now) dir ≡ Err fault) }
    ensures next { IfOk result (λ found. GoesOn (entry_at geometry.now image.now dir) from (slot_count geometry.now image.now dir) found) }
{
    directory(image, geometry, dir)?;
    Ok(next_entry(image, geometry, dir, from))
}
