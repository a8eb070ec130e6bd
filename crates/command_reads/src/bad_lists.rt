//! `ls` of an image with lost blocks.
ghost use Rattle.std.specs.Prelude.{◌≡◌, ◌++◌, true, Ok, IfErr, IfOk, OnOk};
ghost use Rattle.std.specs.List.{flat_map};
ghost use Rattle.vol_dir.specs.Entries.{IsDirectory, slots};
ghost use Rattle.vol_dir.specs.Names.{names_of};
ghost use Rattle.vol_layout.specs.Geometry.{Fits};
ghost use Rattle.vol_rescue.specs.Lines.{TellsNamed};
ghost use Rattle.command_faults.specs.Faults.{line_after, no_memory};
ghost use Rattle.command_reads.specs.BadLists.{IsKnownSight, has_names, list_sights, listed_role, name_entries, names_in, told_names, told_node};
ghost use Rattle.command_reads.specs.Node.{number_at};
ghost use Rattle.command_reads.specs.Print.{IsSight};
ghost use Rattle.command_reads.specs.Unsound.{IsUnopened, listable};

use crate::bad_files::{told_entries, unreached, way_entries};
use crate::export::ending_with;
use crate::node::{NodeFault, number_of};
use crate::print::Shown;
use crate::remarks::Remarks;
use crate::unsound::{FoundFile, list_unsound, listable};
use crate::ways::is_unsure_node;
use command_faults::Fault;
use command_terms::NodeName;
use pdp_words::{Bytes, Image};
use std::alloc::{AllocError, Global};
use vol_archive::{MetEntry, Role, is_directory};
use vol_dir::entries::is_dots;
use vol_dir::list_names;
use vol_layout::{Edition, Geometry};
use vol_listing::{Depth, ListOptions, Screen, joined, shown_path};
use vol_rescue::tell_named;

/// Returns the listing of the file or directory at a path of an image of which blocks may be lost. If none is, it is that of
/// [`list_unsound`]. Else the lines are about what is lost of the directory or file, of the names that are listed, and on the way; the status is 5 if there
/// is any such line, else 1. An i-node that is lost has a row of zeros, and a line. If the path leads nowhere but something is lost on the way, lists
/// nothing, with the lines about that and status 5. Fails if the image breaks rule 1 or 2, the path leads nowhere, a bare listing's path leads to no
/// directory, or memory ran out.
///
/// Costs two walks of the path, [`is_whole`](vol_losses::is_whole) of each directory on it and of each node that is listed, and what
/// [`vol_listing::list`] costs.
pub(crate) fn list_in(
    alloc: Global,
    edition: Edition,
    image: &Image,
    lost: &[bool],
    path: &str,
    listing: ListOptions,
    screen: Screen,
) -> Result<Shown, Fault>
    ensures { IsSight (list_sights edition image.now lost.now path.now listing screen) result }
{
    if lost.is_empty() {
        return list_unsound(alloc, edition, image, path, listing, screen);
    }
    match listed_at(edition, image, path, listing) {
        Ok(place) => list_known(alloc, edition, image, lost, path, place, listing, screen),
        Err(why) => unreached(alloc, edition, image, lost, NodeName::Path(path), why),
    }
}

/// Returns the node at a path, if a listing can begin with it.
fn listed_at(
    edition: Edition,
    image: &Image,
    path: &str,
    listing: ListOptions,
) -> Result<FoundFile, NodeFault>
    ensures found { IfOk result (λ place. number_at edition image.now path.now ≡ Ok place.inode) }
    ensures opened { IfOk result (λ place. listable listing edition image.now place.inode ≡ Ok place.geometry) }
    ensures fits { IfOk result (λ place. Fits place.geometry image.now) }
    ensures fault { IfErr result (IsUnopened (number_at edition image.now path.now) (listable listing edition image.now)) }
{
    let inode = number_of(edition, image, NodeName::Path(path))?;
    let geometry = listable(edition, image, inode, listing)?;
    Ok(FoundFile { geometry, inode })
}

/// Returns the listing of a node that was found, and the remarks on what is lost.
fn list_known(
    alloc: Global,
    edition: Edition,
    image: &Image,
    lost: &[bool],
    path: &str,
    place: FoundFile,
    listing: ListOptions,
    screen: Screen,
) -> Result<Shown, Fault>
    requires found { number_at edition image.now path.now ≡ Ok place.inode }
    requires opened { listable listing edition image.now place.inode ≡ Ok place.geometry }
    requires fits { Fits place.geometry image.now }
    ensures shown { IfOk result (λ shown. IsKnownSight edition image.now lost.now path.now listing screen shown.text.items shown.ending.status
        (line_after shown.ending.fault)) }
    ensures fault { IfErr result (λ fault. fault ≡ no_memory) }
{
    let FoundFile { geometry, inode } = place;
    let path = path.as_bytes();
    let text = vol_listing::list(alloc, image, &geometry, path, inode, listing, screen)?;
    let remarks = remarks_on(alloc, image, &geometry, lost, listing.depth, path, inode)?;
    let ending = ending_with(true, remarks);
    Ok(Shown { text, ending })
}

/// Returns the remarks on a listing: what is lost of the node, of its names that are listed, and on the way.
fn remarks_on(
    alloc: Global,
    image: &Image,
    geometry: &Geometry,
    lost: &[bool],
    depth: Depth,
    path: &[u8],
    inode: u16,
) -> Result<Remarks, AllocError>
    requires { Fits geometry.now image.now }
    ensures { IfOk result (λ remarks. TellsNamed geometry.now image.now lost.now (told_names geometry.now image.now lost.now depth path.now inode)
        remarks.lines.items remarks.is_short) }
{
    let mut founds = told_node(alloc, image, geometry, lost, path, inode)?;
    let top = shown_path(alloc, path)?;
    push_names_in(alloc, image, geometry, depth, &top, inode, &mut founds)?;
    let told = tell_named(alloc, image, geometry, lost, &founds)?;
    Ok(Remarks {
        rule: None,
        lines: told.lines,
        is_short: told.is_short,
    })
}

/// Returns what is told of node `inode` itself, at a path, and of the way there.
fn told_node(
    alloc: Global,
    image: &Image,
    geometry: &Geometry,
    lost: &[bool],
    path: &[u8],
    inode: u16,
) -> Result<Vec<MetEntry>, AllocError>
    requires { Fits geometry.now image.now }
    ensures { IfOk result (λ founds. founds.items ≡ told_node geometry.now image.now lost.now path.now inode) }
{
    if is_unsure_node(image, geometry, lost, inode) {
        way_entries(alloc, image, geometry, lost, path)
    } else {
        told_entries(alloc, image, geometry, lost, path, inode)
    }
}

/// Appends the names in node `inode` at a path, as entries, if a listing at this depth has them.
fn push_names_in(
    alloc: Global,
    image: &Image,
    geometry: &Geometry,
    depth: Depth,
    path: &[u8],
    inode: u16,
    founds: &mut Vec<MetEntry>,
) -> Result<(), AllocError>
    requires { Fits geometry.now image.now }
    ensures { OnOk result (founds.new.items ≡ founds.old.items ++ names_in geometry.now image.now depth path.now inode) }
{
    if has_names(image, geometry, depth, inode) {
        let names = list_names(alloc, image, geometry, inode)?;
        push_names(alloc, image, geometry, path, &names, founds)?;
    }
    Ok(())
}

/// True if a listing at this depth has the names in node `i`.
fn has_names(image: &Image, geometry: &Geometry, depth: Depth, i: u16) -> bool
    requires { Fits geometry.now image.now }
    ensures exact { result ≡ has_names geometry.now image.now depth i }
    ensures directory { result ≡ true → IsDirectory geometry.now image.now i }
{
    match depth {
        Depth::Itself => false,
        Depth::Names | Depth::Below => is_directory(image, geometry, i),
    }
}

/// Appends names of the directory at a path, as entries, but for `.` and `..`.
fn push_names(
    alloc: Global,
    image: &Image,
    geometry: &Geometry,
    path: &[u8],
    names: &[(Bytes, u16)],
    founds: &mut Vec<MetEntry>,
) -> Result<(), AllocError>
    requires { Fits geometry.now image.now }
    ensures { OnOk result (founds.new.items ≡ founds.old.items ++ flat_map (name_entries geometry.now image.now path.now) names.now) }
{
    'names: for (name, inode) in names {
        push_name(
            alloc,
            image,
            geometry,
            path,
            name.as_slice(),
            *inode,
            founds,
        )?;
    }
    Ok(())
}

/// Appends a name of the directory at a path, as an entry, unless it is `.` or `..`.
fn push_name(
    alloc: Global,
    image: &Image,
    geometry: &Geometry,
    path: &[u8],
    name: &[u8],
    inode: u16,
    founds: &mut Vec<MetEntry>,
) -> Result<(), AllocError>
    requires { Fits geometry.now image.now }
    ensures { OnOk result (founds.new.items ≡ founds.old.items ++ name_entries geometry.now image.now path.now (name.now, inode)) }
{
    if is_dots(name) {
        return Ok(());
    }
    founds.push(MetEntry {
        path: Bytes::from_vec(joined(alloc, path, name)?),
        inode,
        role: listed_role(image, geometry, inode),
    })?;
    Ok(())
}

/// Returns the role of node `i`, if it were in an archive.
fn listed_role(image: &Image, geometry: &Geometry, i: u16) -> Role
    requires { Fits geometry.now image.now }
    ensures { result ≡ listed_role geometry.now image.now i }
{
    if is_directory(image, geometry, i) {
        Role::Directory
    } else {
        Role::File
    }
}
