//! The command that prints the paths of everything below a directory.
ghost use Rattle.std.specs.Prelude.{◌≡◌, ◌++◌, [], map, true, IfOk, OnOk, option_map, string_bytes};
ghost use Rattle.std.specs.List.{flat_map};
ghost use Rattle.serde_json.specs.View.{view};
ghost use Rattle.vol_layout.specs.Geometry.{Fits};
ghost use Rattle.vol_listing.specs.Listings.{shown_path};
ghost use Rattle.command_reads.specs.Find.{AreFound, TellsFound, found_data, found_in, found_json, found_line, found_sights, is_wanted, path_data};
ghost use Rattle.command_reads.specs.Print.{IsSight, telling};
ghost use Rattle.command_reads.specs.Remarks.{limit_lines};
ghost use Rattle.command_reads.specs.Sums.{IsManifestFault};

use crate::export::{begun, ending_with, walk_all};
use crate::losses::losses_on;
use crate::print::Shown;
use crate::remarks::{Remarks, push_limits};
use crate::unreached::unreached;
use command_faults::Fault;
use command_terms::OutputForm;
use name_patterns::{is_like, last_name};
use pdp_words::Image;
use serde_json::{Value, json};
use std::alloc::{AllocError, Global};
use vol_archive::MetEntry;
use vol_dir::FoundDirectory;
use vol_layout::Edition;
use vol_listing::json::{entries_line, escaped_text};
use vol_listing::{Screen, joined, push_shown, shown_path};

/// Returns the path of everything below the directory at a path, each on a line or as an entry of a JSON object, in the order of an export. With a
/// `pattern`, only has paths whose last name matches it. With `lost`, also has the i-nodes that no entry names, as an export has them. The image must
/// keep rules 1 and 2, and may be any bytes otherwise. The status is 0, or 5 if there are paths above 4,096 bytes: there is a line about each of
/// them, and what is below them is left out. Fails if the image breaks one of these rules, the path leads to no directory, or memory ran out.
///
/// Costs the walk, and takes memory for all paths and for the text.
pub(crate) fn find(
    alloc: Global,
    edition: Edition,
    image: &Image,
    path: &str,
    pattern: Option<&str>,
    lost: bool,
    form: OutputForm,
    screen: Screen,
) -> Result<Shown, Fault>
    ensures { IsSight (telling 5 (AreFound edition image.now [] path.now (option_map (λ word. word.now) pattern.entry) lost form screen true)
        (IsManifestFault edition image.now path.now lost)) result }
{
    find_in(
        alloc,
        edition,
        image,
        &[],
        path,
        pattern,
        lost,
        form,
        screen,
    )
}

/// Returns the paths of everything below the directory at a path, as [`find`] does, of an image with lost blocks. If there are marks, the status is 5 if
/// anything is damaged or left out, else 1, and the lines are those about what is lost. If the path leads to no directory but something is lost on the
/// way, nothing is shown, with the lines about that and status 5.
///
/// Costs what [`find`] and [`tell_losses`] cost.
pub(crate) fn find_in(
    alloc: Global,
    edition: Edition,
    image: &Image,
    marks: &[bool],
    path: &str,
    pattern: Option<&str>,
    lost: bool,
    form: OutputForm,
    screen: Screen,
) -> Result<Shown, Fault>
    ensures { IsSight (found_sights edition image.now marks.now path.now (option_map (λ word. word.now) pattern.entry) lost form screen) result }
{
    let start = match begun(edition, image, path.as_bytes(), lost) {
        Ok(start) => start,
        Err(why) => return unreached(alloc, edition, image, marks, path.as_bytes(), why),
    };
    let rescue = walk_all(alloc, image, &start.geometry, start.inode, lost)?;
    let top = shown_path(alloc, path.as_bytes())?;
    let text = found_in(alloc, &top, &rescue.founds, pattern, form, screen)?;
    let remarks = remarks_on(alloc, image, marks, &start, &rescue.founds)?;
    let ending = ending_with(true, remarks);
    Ok(Shown { text, ending })
}

/// Returns the remarks on the entries: what is lost, if there are lost blocks, else those at which the walk stopped because their paths are too long.
fn remarks_on(
    alloc: Global,
    image: &Image,
    lost: &[bool],
    start: &FoundDirectory,
    founds: &[MetEntry],
) -> Result<Remarks, AllocError>
    requires { Fits start.now.geometry image.now }
    ensures { IfOk result (λ remarks. TellsFound start.now.geometry image.now lost.now start.now.inode founds.now remarks.lines.items remarks.is_short) }
{
    if lost.is_empty() {
        return limits(alloc, founds);
    }
    losses_on(alloc, image, lost, start, founds)
}

/// Returns the remarks on the entries at which the walk stopped because their paths are too long.
fn limits(alloc: Global, founds: &[MetEntry]) -> Result<Remarks, AllocError>
    ensures lines { IfOk result (λ remarks. remarks.lines.items ≡ limit_lines founds.now) }
    ensures short { IfOk result (λ remarks. remarks.is_short ≡ true) }
{
    let mut lines = Vec::new(alloc);
    push_limits(&mut lines, founds)?;
    Ok(Remarks {
        rule: None,
        lines,
        is_short: true,
    })
}

/// Returns the paths of the entries that the walk found below the directory at path `top`, in this format.
fn found_in(
    alloc: Global,
    top: &[u8],
    founds: &[MetEntry],
    pattern: Option<&str>,
    form: OutputForm,
    screen: Screen,
) -> Result<Vec<u8>, AllocError>
    ensures { IfOk result (λ text. text.items ≡ found_in screen (option_map (λ word. word.now) pattern.entry) top.now founds.now form) }
{
    match form {
        OutputForm::Text => found_lines(alloc, top, founds, pattern, screen),
        OutputForm::Json => Ok(found_json(alloc, top, founds, pattern)?.into_bytes()),
    }
}

/// Returns the lines of the entries that the walk found below the directory at path `top`.
fn found_lines(
    alloc: Global,
    top: &[u8],
    founds: &[MetEntry],
    pattern: Option<&str>,
    screen: Screen,
) -> Result<Vec<u8>, AllocError>
    ensures { IfOk result (λ text. text.items ≡ flat_map (found_line screen (option_map (λ word. word.now) pattern.entry) top.now) founds.now) }
{
    let mut text = Vec::new(alloc);
    'founds: for found in founds {
        push_found(alloc, top, found, pattern, screen, &mut text)?;
    }
    Ok(text)
}

/// Returns one object with the entries that the walk found below the directory at path `top`, on one line.
fn found_json(
    alloc: Global,
    top: &[u8],
    founds: &[MetEntry],
    pattern: Option<&str>,
) -> Result<String, AllocError>
    ensures { IfOk result (λ text. string_bytes text ≡ found_json (option_map (λ word. word.now) pattern.entry) top.now founds.now) }
{
    let values = found_values(alloc, top, founds, pattern)?;
    entries_line(alloc, values)
}

/// Returns the objects of the entries that are wanted.
fn found_values(
    alloc: Global,
    top: &[u8],
    founds: &[MetEntry],
    pattern: Option<&str>,
) -> Result<Vec<Value>, AllocError>
    ensures { IfOk result (λ values. map view values.items ≡ flat_map (found_data (option_map (λ word. word.now) pattern.entry) top.now) founds.now) }
{
    let mut values = Vec::new(alloc);
    'founds: for found in founds {
        push_value(alloc, top, found, pattern, &mut values)?;
    }
    Ok(values)
}

/// Appends the object of an entry that the walk found below the directory at path `top`, if it is wanted.
fn push_value(
    alloc: Global,
    top: &[u8],
    found: &MetEntry,
    pattern: Option<&str>,
    values: &mut Vec<Value>,
) -> Result<(), AllocError>
    ensures { OnOk result (map view values.new.items ≡ map view values.old.items ++ found_data (option_map (λ word. word.now) pattern.entry) top.now found.now) }
{
    if is_wanted(pattern, found.path.as_slice()) {
        values.push(path_value(alloc, top, found)?)?;
    }
    Ok(())
}

/// Returns the object of an entry that the walk found below the directory at path `top`.
fn path_value(alloc: Global, top: &[u8], found: &MetEntry) -> Result<Value, AllocError>
    ensures { IfOk result (λ value. view value ≡ path_data top.now found.now) }
{
    let path = joined(alloc, top, found.path.as_slice())?;
    let path = escaped_text(alloc, &path)?;
    json!(in alloc; {"ino": found.inode, "path": path})
}

/// Appends the line of an entry that the walk found below the directory at path `top`, if it is wanted.
#[tactic(auto, unfolding(crate::specs::Find::found_line))]
fn push_found(
    alloc: Global,
    top: &[u8],
    found: &MetEntry,
    pattern: Option<&str>,
    screen: Screen,
    text: &mut Vec<u8>,
) -> Result<(), AllocError>
    ensures { OnOk result (text.new.items ≡ text.old.items ++ found_line screen (option_map (λ word. word.now) pattern.entry) top.now found.now) }
{
    if is_wanted(pattern, found.path.as_slice()) {
        let path = joined(alloc, top, found.path.as_slice())?;
        push_shown(screen, &path, text)?;
        text.push(b'\n')?;
    }
    Ok(())
}

/// True if the last name of a path matches the pattern, or if there is no pattern.
fn is_wanted(pattern: Option<&str>, path: &[u8]) -> bool
    ensures { result ≡ is_wanted (option_map (λ word. word.now) pattern.entry) path.now }
{
    match pattern {
        None => true,
        Some(pattern) => is_like(pattern.as_bytes(), last_name(path)),
    }
}
