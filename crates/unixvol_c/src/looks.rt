//! What commands show of an image, which may be any bytes: the same text, the same lines, the same status.
ghost use Rattle.std.specs.Prelude.{◌≡◌, ◌≢◌, ◌↔◌, ◌⊎◌, IfOk, IfSome, IsNone, option_map};
ghost use Rattle.std.specs.Str.{IsUtf8};
ghost use Rattle.vol_listing.specs.declared.options.Screen.TheVariants.{Stream};
ghost use Rattle.command_reads.specs.Look.{Looks};
ghost use Rattle.command_terms.specs.declared.comparison.Comparison.TheVariants as comparisons;
ghost use Rattle.unixvol_c.specs.Calls.{edition_of, IsNoEdition};
ghost use Rattle.unixvol_c.specs.Kept.{HandsOut, IsKept};
ghost use Rattle.unixvol_c.specs.Looks.{Compares, ComparesAs, IsAsked, IsComparison, IsDumpAt, IsGiven, IsNodeAt, LooksAt, RescuesAs};
ghost use Rattle.unixvol_c.specs.Looks.{IsNoComparison, IsNoLook, IsPictured, dump_form_of, form_of, listing_of};

use crate::kept::{Kept, hand_out, keep};
use crate::open::edition_of;
use crate::structs::{RescueView, Seen, View};
use crate::{
    BY_ALL_FIELDS, BY_ALL_FIELDS_JSON, BY_ALL_TIMES, BY_ALL_TIMES_JSON, BY_FIELDS, BY_FIELDS_JSON,
    BY_TREE, BY_TREE_JSON, LOOK_BLOCK, LOOK_CHECK, LOOK_DF, LOOK_DUMP, LOOK_DUMP_NODE, LOOK_FIND,
    LOOK_FREE, LOOK_INODE, LOOK_LIST, LOOK_MAP, LOOK_SLOTS, LOOK_SUMS, LOOK_SUPER, LOOK_SVG,
    NO_EDITION, NO_LOOK, NO_MEMORY,
};
use command_faults::answer::tell;
use command_reads::bad_looks::look_bad;
use command_reads::diff::NamedImage;
use command_reads::{BadBlocks, BadMap, look, show_comparison};
use command_terms::{
    BadLook, Comparison, DumpForm, DumpTarget, ExportOptions, Look, LossOptions, NodeName,
    OutputForm, Picture,
};
use pdp_words::IntoWrite;
use std::alloc::{AllocError, Global};
use vol_fields::Radix;
use vol_layout::Edition;
use vol_listing::{Depth, Lines, ListOptions, Screen};

/// Puts what a command shows of an image into a buffer: the text that it prints, and after it the lines that it prints on standard error. Sets `seen` to
/// the numbers of their bytes and to the command's status. The image may be any bytes. If the buffer is too short, sets only `seen`.
///
/// Costs as much as the command. Takes memory for a copy of the image, and for the text.
#[unsafe(no_mangle)]
pub extern "C" fn unixvol_look(
    alloc: Global,
    edition: u8,
    bytes: &[u8],
    view: &View,
    path: &[u8],
    pattern: &[u8],
    into: &mut [u8],
    seen: &mut Seen,
) -> i32
    ensures shown { result ≢ NO_EDITION → result ≢ NO_LOOK → result ≢ NO_MEMORY
        → HandsOut (LooksAt (edition_of edition) bytes.now view.now path.now pattern.now) into.old into.new seen.new result }
    ensures edition { result ≡ NO_EDITION ↔ IsNoEdition edition }
    ensures unknown { result ≡ NO_LOOK → IsNoLook view.now path.now pattern.now }
    ensures unchanged { (result ≡ NO_EDITION) ⊎ (result ≡ NO_LOOK) ⊎ (result ≡ NO_MEMORY) → (into.new ≡ into.old) × (seen.new ≡ seen.old) }
{
    let Some(edition) = edition_of(edition) else {
        return NO_EDITION;
    };
    let Some(asked) = asked_look(view, path, pattern) else {
        return NO_LOOK;
    };
    match kept_look(alloc, edition, bytes, asked) {
        Ok(kept) => hand_out(&kept, into, seen),
        Err(_) => NO_MEMORY,
    }
}

/// Puts what differs between two images into a buffer, as [`unixvol_look`] does: what `diff` prints, by their trees or by their fields. Lines name the
/// images `old` and `new`.
///
/// Costs as much as the command. Takes memory for copies of the images, and for the text.
#[unsafe(no_mangle)]
pub extern "C" fn unixvol_compare(
    alloc: Global,
    edition: u8,
    before: &[u8],
    after: &[u8],
    by: u8,
    into: &mut [u8],
    seen: &mut Seen,
) -> i32
    ensures shown { result ≢ NO_EDITION → result ≢ NO_LOOK → result ≢ NO_MEMORY
        → HandsOut (ComparesAs (edition_of edition) before.now after.now by) into.old into.new seen.new result }
    ensures edition { result ≡ NO_EDITION ↔ IsNoEdition edition }
    ensures unknown { result ≡ NO_LOOK → IsNoComparison by }
    ensures unchanged { (result ≡ NO_EDITION) ⊎ (result ≡ NO_LOOK) ⊎ (result ≡ NO_MEMORY) → (into.new ≡ into.old) × (seen.new ≡ seen.old) }
{
    let Some(edition) = edition_of(edition) else {
        return NO_EDITION;
    };
    let Some(by) = comparison_of(by) else {
        return NO_LOOK;
    };
    match kept_comparison(alloc, edition, before, after, by) {
        Ok(kept) => hand_out(&kept, into, seen),
        Err(_) => NO_MEMORY,
    }
}

/// Puts an archive of the whole files of an image with lost blocks into a buffer, as [`unixvol_look`] does: what `export --cut` writes, or with a map
/// `export --bad`. The lines are about what is damaged. Without a map the blocks are lost that the image is too short for; with one, those that the map of
/// GNU ddrescue says weren't read.
///
/// Costs as much as the command. Takes memory for a copy of the image, and for the archive.
#[unsafe(no_mangle)]
pub extern "C" fn unixvol_rescue(
    alloc: Global,
    edition: u8,
    bytes: &[u8],
    view: &RescueView,
    path: &[u8],
    map: &[u8],
    into: &mut [u8],
    seen: &mut Seen,
) -> i32
    ensures shown { result ≢ NO_EDITION → result ≢ NO_LOOK → result ≢ NO_MEMORY
        → HandsOut (RescuesAs (edition_of edition) bytes.now view.now path.now map.now) into.old into.new seen.new result }
    ensures edition { result ≡ NO_EDITION ↔ IsNoEdition edition }
    ensures unknown { result ≡ NO_LOOK → IsUtf8 path.now → ⊥ }
    ensures unchanged { (result ≡ NO_EDITION) ⊎ (result ≡ NO_LOOK) ⊎ (result ≡ NO_MEMORY) → (into.new ≡ into.old) × (seen.new ≡ seen.old) }
{
    let Some(edition) = edition_of(edition) else {
        return NO_EDITION;
    };
    let Ok(path) = str::from_utf8(path) else {
        return NO_LOOK;
    };
    match kept_rescue(alloc, edition, bytes, view, path, map) {
        Ok(kept) => hand_out(&kept, into, seen),
        Err(_) => NO_MEMORY,
    }
}

/// Returns what a look shows.
fn kept_look(
    alloc: Global,
    edition: Edition,
    bytes: &[u8],
    asked: Look<'_>,
) -> Result<Kept, AllocError>
    ensures { IfOk result (IsKept (λ streams status. Looks edition bytes.now Stream streams status asked.entry)) }
{
    let image = Vec::from_slice(alloc, bytes)?;
    let mut output = IntoWrite::new(Vec::new(alloc));
    let mut errors = IntoWrite::new(Vec::new(alloc));
    let status = look(
        alloc,
        edition,
        image,
        asked,
        Screen::Stream,
        &mut output,
        &mut errors,
    );
    keep(output, errors, status)
}

/// Returns what `diff` shows.
fn kept_comparison(
    alloc: Global,
    edition: Edition,
    before: &[u8],
    after: &[u8],
    by: Comparison,
) -> Result<Kept, AllocError>
    ensures { IfOk result (IsKept (Compares edition before.now after.now by)) }
{
    let old = NamedImage {
        name: "old",
        bytes: Vec::from_slice(alloc, before)?,
    };
    let new = NamedImage {
        name: "new",
        bytes: Vec::from_slice(alloc, after)?,
    };
    let mut output = IntoWrite::new(Vec::new(alloc));
    let mut errors = IntoWrite::new(Vec::new(alloc));
    let ending = show_comparison(alloc, edition, old, new, by, &mut output);
    tell(&ending.fault, &mut errors);
    keep(output, errors, ending.status)
}

/// Returns what `export` writes of an image with lost blocks.
fn kept_rescue(
    alloc: Global,
    edition: Edition,
    bytes: &[u8],
    view: &RescueView,
    path: &str,
    map: &[u8],
) -> Result<Kept, AllocError>
    ensures { IfOk result (IsKept (RescuesAs edition bytes.now view.now path.now map.now)) }
{
    let options = ExportOptions {
        lost: view.lost,
        graded: true,
        losses: LossOptions {
            cut: true,
            damaged: view.damaged,
        },
    };
    if !view.has_map {
        return kept_look(alloc, edition, bytes, Look::Export { path, options });
    }
    let image = Vec::from_slice(alloc, bytes)?;
    let map = BadMap {
        name: "map",
        text: Vec::from_slice(alloc, map)?,
        at: view.at,
    };
    let mut output = IntoWrite::new(Vec::new(alloc));
    let mut errors = IntoWrite::new(Vec::new(alloc));
    let ending = look_bad(
        alloc,
        edition,
        image,
        BadBlocks::Map(map),
        None,
        BadLook::Export { path, options },
        Screen::Stream,
        &mut output,
    );
    tell(&ending.fault, &mut errors);
    keep(output, errors, ending.status)
}

/// Returns the look that a view asks for, or `None` if there is no such look, as of a map of one file as JSON, or if the path or the pattern isn't UTF-8.
fn asked_look<'a>(view: &View, path: &'a [u8], pattern: &'a [u8]) -> Option<Look<'a>>
    ensures some { IfSome result (IsAsked view.now path.now pattern.now) }
    ensures none { IsNone result → IsNoLook view.now path.now pattern.now }
{
    let path = str::from_utf8(path).ok()?;
    let pattern = str::from_utf8(pattern).ok()?;
    let form = form_of(view.json);
    match view.kind {
        LOOK_INODE => Some(Look::Inode {
            node: node_of(view.inode, path),
            form,
        }),
        LOOK_SUPER => Some(Look::Super { form }),
        LOOK_DF => Some(Look::Df { form }),
        LOOK_FREE => Some(Look::Free { form }),
        LOOK_BLOCK => Some(Look::Block {
            block: view.block,
            form,
        }),
        LOOK_FIND => Some(Look::Find {
            path,
            name: given(pattern),
            lost: view.lost,
            form,
        }),
        LOOK_SUMS => Some(Look::Sums {
            path,
            form,
            lost: view.lost,
        }),
        LOOK_CHECK => Some(Look::Check { graded: true, form }),
        LOOK_MAP if !view.json => Some(map_look(Picture::Cells, path)),
        LOOK_MAP if path.is_empty() => Some(Look::Uses),
        LOOK_SVG => Some(map_look(Picture::Svg, path)),
        LOOK_SLOTS => Some(Look::Slots { path, form }),
        LOOK_LIST => Some(Look::List {
            path,
            listing: listing_of(view.json),
        }),
        LOOK_DUMP => Some(Look::Dump {
            target: DumpTarget::Block(view.block),
            form: dump_form_of(view.json),
        }),
        LOOK_DUMP_NODE => Some(Look::Dump {
            target: node_target(view, path),
            form: dump_form_of(view.json),
        }),
        _ => None,
    }
}

/// Returns the form of a text.
fn form_of(json: bool) -> OutputForm
    ensures { result ≡ form_of json }
{
    if json {
        OutputForm::Json
    } else {
        OutputForm::Text
    }
}

/// Returns the node at a path; that with an i-number if the path is empty.
fn node_of(inode: u16, path: &str) -> NodeName<'_>
    ensures { IsNodeAt inode path.now result }
{
    if path.is_empty() {
        NodeName::Number(inode)
    } else {
        NodeName::Path(path)
    }
}

/// Returns the dump of the node at a path; of that with an i-number if the path is empty.
fn node_target<'a>(view: &View, path: &'a str) -> DumpTarget<'a>
    requires { view.now.kind ≡ LOOK_DUMP_NODE }
    ensures { IsDumpAt view.now path.now result }
{
    if path.is_empty() {
        DumpTarget::Inode(u32::from(view.inode))
    } else {
        DumpTarget::Path(path)
    }
}

/// Returns the form of a dump.
fn dump_form_of(json: bool) -> DumpForm
    ensures { result ≡ dump_form_of json }
{
    if json {
        DumpForm::Json
    } else {
        DumpForm::Text(Radix::Hex)
    }
}

/// Returns a word, or `None` if it is empty.
fn given(word: &str) -> Option<&str>
    ensures { IsGiven word.now (option_map (λ word. word.now) result) }
{
    if word.is_empty() { None } else { Some(word) }
}

/// Returns the picture of the use of each block, or if there is a path of the blocks of the file or directory there.
fn map_look(picture: Picture, path: &str) -> Look<'_>
    ensures { IsPictured picture path.now result }
{
    Look::Map {
        picture,
        file: given(path),
    }
}

/// Returns the options of a listing: of the names in a directory, with attributes.
fn listing_of(json: bool) -> ListOptions
    ensures { result ≡ listing_of json }
{
    ListOptions {
        lines: if json { Lines::Json } else { Lines::Long },
        depth: Depth::Names,
    }
}

/// Returns the comparison with a number.
fn comparison_of(number: u8) -> Option<Comparison>
    ensures some { IfSome result (IsComparison number) }
    ensures none { IsNone result → IsNoComparison number }
{
    match number {
        BY_TREE => Some(by_tree(false, OutputForm::Text)),
        BY_ALL_TIMES => Some(by_tree(true, OutputForm::Text)),
        BY_FIELDS => Some(by_fields(false, OutputForm::Text)),
        BY_ALL_FIELDS => Some(by_fields(true, OutputForm::Text)),
        BY_TREE_JSON => Some(by_tree(false, OutputForm::Json)),
        BY_ALL_TIMES_JSON => Some(by_tree(true, OutputForm::Json)),
        BY_FIELDS_JSON => Some(by_fields(false, OutputForm::Json)),
        BY_ALL_FIELDS_JSON => Some(by_fields(true, OutputForm::Json)),
        _ => None,
    }
}

/// Returns the comparison by trees.
fn by_tree(times: bool, form: OutputForm) -> Comparison
    ensures { result ≡ comparisons.Tree times form }
{
    Comparison::Tree { times, form }
}

/// Returns the comparison by fields.
fn by_fields(all: bool, form: OutputForm) -> Comparison
    ensures { result ≡ comparisons.Fields all form }
{
    Comparison::Fields { all, form }
}
