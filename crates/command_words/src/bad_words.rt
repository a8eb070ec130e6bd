//! Reads the words about an image of which some blocks couldn't be read.
ghost use Rattle.std.specs.Prelude.{◌≡◌, ◌∷◌, [], None, false, true, codes, IfErr, IfOk};
ghost use Rattle.command_words.specs.BadWords.{IsBadImageGiven, IsBadIfAny, IsBadWrong, IsSizesGiven, sizes_from, sizes_of, whole_file};
ghost use Rattle.command_words.specs.Invocations.{TellsOf, is_set, look_at, whole_at};

use crate::fault::WordFault;
use crate::given::{Given, excluded, flag_in, wrong};
use crate::invocation::{BadImage, GivenBad, Invocation, VolumeFile};
use crate::parameters::{Need, Parameter, ValueName, WordKind};
use bad_maps::{ListFault, ReadRange, read_list};
use command_terms::{BadLook, Look};
use disk_sizes::{disk_blocks, list_default};
use line_words::{Pieces, number_in};
use std::alloc::{AllocError, Global};
use vol_layout::Edition;
use vol_losses::VolumeSizes;

pub(crate) const CUT: Parameter = Parameter {
    name: "cut",
    kind: WordKind::Flag,
    need: Need::Flag(None),
    help: "Read an image that was cut off: the blocks that it lacks are lost",
};

pub(crate) const BAD: Parameter = Parameter {
    name: "bad",
    kind: WordKind::Text,
    need: Need::Value(None, ValueName::Map),
    help: "Take the blocks as lost that weren't read, by the map that ddrescue kept of IMAGE",
};

pub(crate) const BAD_BLOCKS: Parameter = Parameter {
    name: "bad-blocks",
    kind: WordKind::BlockList,
    need: Need::Value(None, ValueName::Blocks),
    help: "Take these blocks of the volume as lost, as 12,878-4871; not with --bad",
};

pub(crate) const SIZES: Parameter = Parameter {
    name: "sizes",
    kind: WordKind::Sizes,
    need: Need::Value(None, ValueName::Sizes),
    help: "Take the super-block as lost, and these sizes in its place, as `mkfs` takes them",
};

pub(crate) const LIKE: Parameter = Parameter {
    name: "like",
    kind: WordKind::Disk,
    need: Need::Value(None, ValueName::Disk),
    help: "Take the super-block as lost, and the sizes of a volume that `mkfs` makes for this disk; not with --sizes",
};

pub(crate) const DAMAGED: Parameter = Parameter {
    name: "damaged",
    kind: WordKind::Flag,
    need: Need::Flag(None),
    help: "If blocks are lost, write damaged files too, with zeros in place of the bytes that are lost",
};

/// Reads what the words say of the blocks of an image that couldn't be read, and of the sizes of its volume. Returns `None` if they say nothing, and the
/// image isn't cut off either.
pub(crate) fn bad_image_in<'a, G: Given<'a>>(
    alloc: Global,
    given: &G,
    edition: Edition,
    is_cut: bool,
) -> Result<Option<BadImage<'a>>, WordFault<'a>>
    ensures read { IfOk result (IsBadImageGiven (G.words given.now) edition is_cut) }
    ensures refused { IfErr result (TellsOf (IsBadWrong (G.words given.now))) }
{
    let sizes = sizes_in(given, edition)?;
    match bad_in(alloc, given)? {
        Some(bad) => Ok(Some(BadImage { bad, sizes })),
        None if is_cut || sizes.is_some() => {
            let bad = GivenBad::Outside(whole_file(alloc)?);
            Ok(Some(BadImage { bad, sizes }))
        }
        None => Ok(None),
    }
}

/// Returns the invocation that shows part of an image, of which some blocks may not have been read.
pub(crate) fn look_at<'a>(
    volume: VolumeFile<'a>,
    bad: Option<BadImage<'a>>,
    look: BadLook<'a>,
) -> Invocation<'a>
    ensures { result ≡ look_at volume.entry look.entry bad.entry }
{
    match bad {
        Some(image) => Invocation::LookBad {
            volume,
            image,
            look,
        },
        None => whole_at(volume, look),
    }
}

/// Returns the invocation that shows the same of an image that was read whole.
fn whole_at<'a>(volume: VolumeFile<'a>, look: BadLook<'a>) -> Invocation<'a>
    ensures { result ≡ whole_at volume.entry look.entry }
{
    let look = match look {
        BadLook::Export { path, options } => Look::Export { path, options },
        BadLook::Find {
            path,
            name,
            lost,
            form,
        } => Look::Find {
            path,
            name,
            lost,
            form,
        },
        BadLook::Sums { path, form, lost } => Look::Sums { path, form, lost },
        BadLook::Check { graded, form } => Look::Check { graded, form },
        BadLook::Block { block, form } => Look::Block { block, form },
        BadLook::Map { picture } => Look::Map {
            picture,
            file: None,
        },
        BadLook::Uses => Look::Uses,
        BadLook::List { path, listing } => Look::ListUnsound { path, listing },
        BadLook::Read { path, .. } => Look::ReadUnsound { path },
        BadLook::Body { node, .. } => return Invocation::Cat { volume, node },
    };
    Invocation::Look { volume, look }
}

/// True if the words ask for something of a sound volume: the volume has to be sound, and none of its blocks is lost.
pub(crate) fn is_plain<'a, G: Given<'a>>(given: &G, bad: &Option<BadImage<'a>>) -> bool
    ensures plain { result ≡ true → (bad.now ≡ None) × (is_set (G.words given.now (codes "unsound")) ≡ false) }
    ensures other { result ≡ false → bad.now ≡ None → is_set (G.words given.now (codes "unsound")) ≡ true }
{
    bad.is_none() && !flag_in(given, "unsound")
}

/// Returns the name of the first option that says that blocks of the image are lost; or, with `is_unsound`, that of the one for an unsound volume.
pub(crate) fn losing_in<'a, G: Given<'a>>(given: &G, is_unsound: bool) -> &'a str {
    match (
        given.first("bad"),
        given.first("bad-blocks"),
        given.first("sizes"),
    ) {
        _ if is_unsound => "unsound",
        _ if flag_in(given, "cut") => "cut",
        (Some(_), ..) => "bad",
        (None, Some(_), _) => "bad-blocks",
        (None, None, Some(_)) => "sizes",
        (None, None, None) => "like",
    }
}

/// Returns the range of all bytes that a file can have.
fn whole_file(alloc: Global) -> Result<Vec<ReadRange>, AllocError>
    ensures { IfOk result (λ ranges. ranges.items ≡ whole_file ∷ []) }
{
    let mut ranges = Vec::new(alloc);
    ranges.push(ReadRange {
        first: 0,
        end: u64::MAX,
    })?;
    Ok(ranges)
}

/// Reads what says which blocks couldn't be read. A map and a list exclude each other.
fn bad_in<'a, G: Given<'a>>(alloc: Global, given: &G) -> Result<Option<GivenBad<'a>>, WordFault<'a>>
    ensures read { IfOk result (IsBadIfAny (G.words given.now)) }
    ensures refused { IfErr result (TellsOf (IsBadWrong (G.words given.now))) }
{
    match (given.first("bad"), given.first("bad-blocks")) {
        (None, None) => Ok(None),
        (Some(map), None) => Ok(Some(GivenBad::Map(map))),
        (None, Some(list)) => match read_list(alloc, list.as_bytes()) {
            Ok(ranges) => Ok(Some(GivenBad::Outside(ranges))),
            Err(ListFault::Wrong) => {
                Err(wrong(
                    "bad-blocks",
                    list,
                    "not numbers and ranges of blocks, strictly ascending and apart by commas, as 12,878-4871",
                ))
            }
            Err(ListFault::NoMemory) => Err(WordFault::NoMemory),
        },
        (Some(_), Some(_)) => { Err(excluded("bad-blocks", "bad", BAD_BLOCKS.help)) }
    }
}

/// Reads the sizes of the volume: two numbers, or those that `mkfs` gives the volume of a disk. They exclude each other.
fn sizes_in<'a, G: Given<'a>>(
    given: &G,
    edition: Edition,
) -> Result<Option<VolumeSizes>, WordFault<'a>>
    ensures read { IfOk result (IsSizesGiven (G.words given.now) edition) }
    ensures refused { IfErr result (TellsOf (IsBadWrong (G.words given.now))) }
{
    match (given.first("sizes"), given.first("like")) {
        (None, None) => Ok(None),
        (Some(word), None) => match sizes_of(word.as_bytes()) {
            Some(sizes) => Ok(Some(sizes)),
            None => Err(wrong(
                "sizes",
                word,
                "not two decimal numbers with a comma between them, as 4872,108",
            )),
        },
        (None, Some(word)) => match disk_blocks(word.as_bytes()) {
            Some(blocks) => Ok(Some(VolumeSizes {
                blocks,
                list_blocks: list_default(edition, blocks),
            })),
            None => Err(wrong(
                "like",
                word,
                "not rk05, rk06, rk07, rl01, rl02, rm03, rp03, rp04, rp06, rx01 or rx02",
            )),
        },
        (Some(_), Some(_)) => Err(excluded("like", "sizes", LIKE.help)),
    }
}

/// Reads the number of blocks of a volume and that of its i-list, apart by a comma.
fn sizes_of(text: &[u8]) -> Option<VolumeSizes>
    ensures { result ≡ sizes_of text.now }
{
    let mut words = Pieces::of(b',', text);
    let blocks = words.take_next()?;
    let list_blocks = words.take_next()?;
    if !words.is_empty() {
        return None;
    }
    sizes_from(blocks, list_blocks)
}

/// Reads the number of blocks of a volume and that of its i-list.
fn sizes_from(blocks: &[u8], list_blocks: &[u8]) -> Option<VolumeSizes>
    ensures { result ≡ sizes_from blocks.now list_blocks.now }
{
    let blocks = number_in(10, u64::from(u32::MAX), blocks)?;
    let list_blocks = number_in(10, u64::from(u16::MAX), list_blocks)?;
    Some(VolumeSizes {
        blocks: blocks as u32,
        list_blocks: list_blocks as u16,
    })
}
