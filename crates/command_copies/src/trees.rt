//! Trees of a volume that are copied into a folder of the host.
ghost use Rattle.std.specs.Prelude.{◌≡◌, ◌++◌, map, codes, IfErr, IfOk, OnOk};
ghost use Rattle.std.specs.List.{flat_map};
ghost use Rattle.vol_archive.specs.Export.{is_directory};
ghost use Rattle.vol_archive.specs.Walk.{path_below};
ghost use Rattle.vol_layout.specs.Geometry.{Fits};
ghost use Rattle.vol_rescue.specs.Lines.{named_line};
ghost use Rattle.command_faults.specs.Faults.{line_after};
ghost use Rattle.command_copies.specs.Nodes.{copied_as, read_as};
ghost use Rattle.command_copies.specs.Trees.{AppendsTree, AppendsTreeAt, AreBelowIf, AreTreesRead, GetsTrees, IsPathFault, IsUnread, entry_line, entry_nodes, line_of, name_of, nodes_of, told_status, uncopied_line};

use crate::nodes::{NodeRead, Uncopied, read_entry, read_node};
use command_faults::mount::mount;
use command_faults::path_lines::refused_at;
use command_faults::status::{DONE, REFUSED};
use command_faults::{Ending, Fault};
use escaped_text::push_escaped;
use pdp_words::Image;
use std::alloc::{AllocError, Global};
use std::path::Path;
use vol_archive::{MetEntry, Role, is_directory, walk};
use vol_dir::{Cred, walk as walk_path};
use vol_layout::{Edition, Geometry};
use vol_listing::{joined, shown_path};
use vol_rescue::push_role;
use vol_volume::Volume;

/// What is copied from some paths of a volume.
#[derive(Drop)]
pub struct TreesRead {
    /// The files and directories, each directory before what is in it.
    pub nodes: Vec<NodeRead>,
    /// A line for each entry that isn't copied, in the order in which they were met.
    pub lines: Vec<u8>,
}

/// Reads the files and directories at some paths, in order, with everything below the directories, for `get -r`: either all of them or none. Each path is
/// copied under its last name; what is in the root goes into the folder itself. A further name of a file is a file of its own. Special files, paths
/// above 4,096 bytes and paths that aren't UTF-8 are left out, with a line for each. If nothing is read, the fault is the rule that the image breaks, or
/// the refusal of the first path that leads nowhere.
///
/// Takes memory to mount the image, and for all paths and bytes; costs the walks, and a copy of the bytes.
pub fn get_trees(
    alloc: Global,
    edition: Edition,
    image: Vec<u8>,
    paths: &[&str],
) -> Result<TreesRead, Fault>
    ensures { GetsTrees edition image.items (map (λ path. path.now) paths.now) result }
{
    let volume = mount(alloc, edition, image)?;
    read_trees(alloc, volume.image(), volume.geometry(), paths)
}

/// Reads the trees at some paths of a volume, in order, up to the first that leads nowhere.
fn read_trees(
    alloc: Global,
    image: &Image,
    geometry: &Geometry,
    paths: &[&str],
) -> Result<TreesRead, Fault>
    requires { Fits geometry.now image.now }
    ensures read { IfOk result (λ read. AreTreesRead geometry.now image.now (map (λ path. path.now) paths.now) (map copied_as read.nodes.items) read.lines.items) }
    ensures fault { IfErr result (IsUnread geometry.now image.now (map (λ path. path.now) paths.now)) }
{
    let mut read = TreesRead {
        nodes: Vec::new(alloc),
        lines: Vec::new(alloc),
    };
    'paths: for path in paths {
        push_path(alloc, image, geometry, path, &mut read)?;
    }
    Ok(read)
}

/// Appends the tree at a path of a volume.
fn push_path(
    alloc: Global,
    image: &Image,
    geometry: &Geometry,
    path: &str,
    into: &mut TreesRead,
) -> Result<(), Fault>
    requires { Fits geometry.now image.now }
    ensures read { OnOk result (AppendsTree geometry.now image.now path.now into.old into.new) }
    ensures fault { IfErr result (IsPathFault geometry.now image.now path.now) }
{
    match walk_path(image, geometry, Cred::ROOT, path.as_bytes()) {
        Ok(start) => Ok(push_tree(alloc, image, geometry, path, start, into)?),
        Err(refusal) => Err(refused_at(alloc, refusal, path.as_bytes())?),
    }
}

/// Appends i-node `start`, to which a path leads, and everything below it if it is a directory.
fn push_tree(
    alloc: Global,
    image: &Image,
    geometry: &Geometry,
    path: &str,
    start: u16,
    into: &mut TreesRead,
) -> Result<(), AllocError>
    requires fits { Fits geometry.now image.now }
    ensures { OnOk result (AppendsTreeAt geometry.now image.now path.now start into.old into.new) }
{
    let name = name_of(path);
    let top = shown_path(alloc, path.as_bytes())?;
    let place = Vec::from_slice(alloc, name.as_bytes())?;
    let read = read_node(alloc, image, geometry, place, start)?;
    push_read(into, &top, read)?;
    let founds = met_below(alloc, image, geometry, start)?;
    push_founds(alloc, image, geometry, name, &top, &founds, into)?;
    Ok(())
}

/// Returns all that a walk meets below an i-node; nothing if it is no directory.
#[tactic(auto, using(crate::proofs::ReadTrees::below_directory, crate::proofs::ReadTrees::below_nothing))]
fn met_below(
    alloc: Global,
    image: &Image,
    geometry: &Geometry,
    start: u16,
) -> Result<Vec<MetEntry>, AllocError>
    requires { Fits geometry.now image.now }
    ensures { IfOk result (λ founds. AreBelowIf (is_directory geometry.now image.now start) geometry.now image.now start founds.items) }
{
    if is_directory(image, geometry, start) {
        walk(alloc, image, geometry, start)
    } else {
        Ok(Vec::new(alloc))
    }
}

/// Appends the entries that a walk met below the directory at path `top`, which is copied under this name.
fn push_founds(
    alloc: Global,
    image: &Image,
    geometry: &Geometry,
    name: &str,
    top: &[u8],
    founds: &[MetEntry],
    into: &mut TreesRead,
) -> Result<(), AllocError>
    requires { Fits geometry.now image.now }
    ensures nodes { OnOk result (map copied_as into.new.nodes.items
        ≡ map copied_as into.old.nodes.items ++ flat_map (entry_nodes geometry.now image.now name.now) founds.now) }
    ensures lines { OnOk result (into.new.lines.items
        ≡ into.old.lines.items ++ flat_map (entry_line geometry.now image.now name.now top.now) founds.now) }
{
    'founds: for found in founds {
        let path = path_below(alloc, name, found.path.as_slice())?;
        let read = read_entry(alloc, image, geometry, path, found)?;
        let shown = joined(alloc, top, found.path.as_slice())?;
        push_read(into, &shown, read)?;
    }
    Ok(())
}

/// Appends a node that was read, or a line about the path of an entry that isn't copied.
fn push_read(
    into: &mut TreesRead,
    shown: &[u8],
    read: Result<NodeRead, Uncopied>,
) -> Result<(), AllocError>
    ensures nodes { OnOk result (map copied_as into.new.nodes.items ≡ map copied_as into.old.nodes.items ++ nodes_of (read_as read)) }
    ensures lines { OnOk result (into.new.lines.items ≡ into.old.lines.items ++ line_of shown.now (read_as read)) }
{
    match read {
        Ok(node) => Ok(into.nodes.push(node)?),
        Err(why) => push_uncopied(&mut into.lines, shown, why),
    }
}

/// The words for a special file.
const SPECIAL: &[u8] = b"a special file";

/// The words for a path that no file of the host can have.
const NOT_TEXT: &[u8] = b"the name is not UTF-8 text";

/// The words for a path that can't be a word of a list.
const SPACED: &[u8] = b"a list has no place for a space or a newline in a path";

/// The words for a special file that a list can't say.
const DEVICE: &[u8] = b"a list has no place for such a special file";

/// Appends the line about the path of an entry that isn't copied.
pub(crate) fn push_uncopied(
    lines: &mut Vec<u8>,
    shown: &[u8],
    why: Uncopied,
) -> Result<(), AllocError>
    ensures { OnOk result (lines.new.items ≡ lines.old.items ++ uncopied_line shown.now why) }
{
    match why {
        Uncopied::Left(reason) => push_role(lines, shown, Role::Left(reason)),
        Uncopied::Special => push_line(lines, shown, SPECIAL),
        Uncopied::NotText => push_line(lines, shown, NOT_TEXT),
        Uncopied::Spaced => push_line(lines, shown, SPACED),
        Uncopied::Device => push_line(lines, shown, DEVICE),
    }
}

/// Appends a line with a path and some words.
#[tactic(auto, unfolding(vol_rescue::specs::Lines::named_line))]
fn push_line(lines: &mut Vec<u8>, shown: &[u8], words: &[u8]) -> Result<(), AllocError>
    ensures { OnOk result (lines.new.items ≡ lines.old.items ++ named_line shown.now (codes ": ") words.now) }
{
    lines.extend_from_slice(b"unixvol: ")?;
    push_escaped(lines, shown)?;
    lines.extend_from_slice(b": ")?;
    lines.extend_from_slice(words)?;
    lines.push(b'\n')?;
    Ok(())
}

/// Returns the result of a command that copied what it could, with the lines about the rest: the status is 0 if there are none, else 1.
pub fn ending_of(lines: Vec<u8>) -> Ending
    ensures status { result.status ≡ told_status lines.items }
    ensures line { line_after result.fault ≡ lines.items }
{
    if lines.is_empty() {
        return Ending {
            status: DONE,
            fault: None,
        };
    }
    Ending {
        status: REFUSED,
        fault: Some(Fault::Worded { rule: None, lines }),
    }
}

/// Returns the last name of a path, under which it is copied; empty if the path ends in `..` or has no names.
pub fn name_of(path: &str) -> &str
    ensures { result.now ≡ name_of path.now }
{
    Path::new(path).file_name().unwrap_or("")
}

/// Returns the path of an entry with this path below a directory that is copied under this name.
fn path_below(alloc: Global, name: &str, path: &[u8]) -> Result<Vec<u8>, AllocError>
    ensures { IfOk result (λ bytes. bytes.items ≡ path_below name.now path.now) }
{
    let mut bytes = Vec::from_slice(alloc, name.as_bytes())?;
    if !name.is_empty() {
        bytes.push(b'/')?;
    }
    bytes.extend_from_slice(path)?;
    Ok(bytes)
}
