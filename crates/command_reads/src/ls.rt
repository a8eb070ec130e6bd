//! The command that lists the names in a directory.
ghost use Rattle.std.specs.Prelude.{◌≡◌, ◌≢◌, true, IfErr, IfOk, OnOk};
ghost use Rattle.vol_layout.specs.Geometry.{Fits, geometry_of};
ghost use Rattle.vol_layout.specs.declared.mode.Kind.TheVariants as kinds;
ghost use Rattle.vol_dir.specs.declared.refusal.Refusal.TheVariants as refusals;
ghost use Rattle.command_faults.specs.declared.fault.Fault.TheVariants as faults;
ghost use Rattle.vol_judge.specs.Sound.{IsSound};
ghost use Rattle.command_reads.specs.Queries.{IsObstacle};
ghost use Rattle.command_reads.specs.Ls.{IsFound, IsListing, question_of};
ghost use Rattle.vol_change.specs.Nodes.{node_at};
ghost use Rattle.vol_dir.specs.Walk.{is_directory};
ghost use Rattle.vol_listing.specs.Depths.{is_bare};
ghost use Rattle.vol_volume.specs.Volume.{reads_as};

use command_faults::Fault;
use pdp_words::Image;
use std::alloc::Global;
use vol_dir::{Cred, Refusal};
use vol_judge::examine;
use vol_layout::{Edition, Geometry, Kind};
use vol_listing::{ListOptions, Screen};
use vol_volume::{Bytes, Query, Reply, Stat, ask_image};

/// Returns the listing of the file or directory at a path of a sound image. A directory's names are listed in ascending order of their bytes, each on
/// a line with its i-number and, if `listing` asks for them, its i-node's attributes; if `listing` asks for it, the names of each directory below
/// follow. A file has one line, unless the listing is bare. As JSON, the listing has the same contents, with names escaped as on a terminal. Fails if
/// the image isn't sound, the path leads nowhere, a bare listing's path leads to no directory, or memory ran out.
///
/// Costs [`examine`], reading each i-node whose attributes are shown, and, for each directory, walking its path and sorting its names. Takes memory
/// for these and for the text.
pub(crate) fn list_image(
    alloc: Global,
    edition: Edition,
    image: &Image,
    path: &str,
    listing: ListOptions,
    screen: Screen,
) -> Result<Vec<u8>, Fault>
    ensures text { IfOk result (λ text. IsListing edition image.now path.now listing screen text.items) }
    ensures fault { IfErr result (λ fault. IsObstacle edition image.now (question_of listing path.now) fault) }
{
    match examine(alloc, edition, image, true)? {
        Ok(examined) => {
            let geometry = &examined.geometry;
            list_sound(alloc, edition, image, geometry, path, listing, screen)
        }
        Err(rule) => Err(Fault::Unsound(rule)),
    }
}

/// Returns the listing of the file or directory at a path of a sound image.
fn list_sound(
    alloc: Global,
    edition: Edition,
    image: &Image,
    geometry: &Geometry,
    path: &str,
    listing: ListOptions,
    screen: Screen,
) -> Result<Vec<u8>, Fault>
    requires sound { IsSound edition image.now }
    requires sizes { geometry.now ≡ geometry_of edition image.now }
    requires fits { Fits geometry.now image.now }
    ensures text { IfOk result (λ text. IsListing edition image.now path.now listing screen text.items) }
    ensures fault { IfErr result (λ fault. IsObstacle edition image.now (question_of listing path.now) fault) }
{
    let inode = find(alloc, edition, image, geometry, path, listing)?;
    let path = path.as_bytes();
    Ok(vol_listing::list(alloc, image, geometry, path, inode, listing, screen)?)
}

/// Returns the i-number of the file or directory at a path of a sound image; it must be a directory if the listing is bare.
fn find(
    alloc: Global,
    edition: Edition,
    image: &Image,
    geometry: &Geometry,
    path: &str,
    listing: ListOptions,
) -> Result<u16, Fault>
    requires sound { IsSound edition image.now }
    requires sizes { geometry.now ≡ geometry_of edition image.now }
    ensures found { IfOk result (λ i. IsFound edition image.now path.now i) }
    ensures opened { IfOk result (λ i. is_bare listing ≡ true → is_directory (node_at (reads_as edition image.now).tree i) ≡ true) }
    ensures fault { IfErr result (λ fault. IsObstacle edition image.now (question_of listing path.now) fault) }
{
    let path = Bytes::from_vec(Vec::from_slice(alloc, path.as_bytes())?);
    let query = Query::Stat {
        cred: Cred::ROOT,
        path,
    };
    match ask_image(alloc, image, geometry, &query) {
        Ok(Reply::Stat(stat)) => number_of(stat, listing),
        Ok(Reply::Bytes(_)) => unreachable!(),
        Ok(Reply::Names(_)) => unreachable!(),
        Err(refusal) => Err(Fault::Refused(refusal)),
    }
}

/// Returns the i-number of a node to list, or `NotDirectory` if the listing is bare and the node isn't a directory.
fn number_of(stat: Stat, listing: ListOptions) -> Result<u16, Fault>
    ensures number { IfOk result (λ i. i ≡ stat.number) }
    ensures opened { OnOk result (is_bare listing ≡ true → stat.kind ≡ kinds.Directory) }
    ensures refused { IfErr result (λ fault. (fault ≡ faults.Refused refusals.NotDirectory) × (is_bare listing ≡ true) × (stat.kind ≢ kinds.Directory)) }
{
    if listing.is_bare() && stat.kind != Kind::Directory {
        return Err(Fault::Refused(Refusal::NotDirectory));
    }
    Ok(stat.number)
}
