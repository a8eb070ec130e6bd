//! The outcomes of the rules of soundness for an image with lost blocks.
ghost use Rattle.std.specs.Prelude.{◌≡◌};
ghost use Rattle.std.specs.List.{position};
ghost use Rattle.vol_layout.specs.Geometry.{Fits};
ghost use Rattle.vol_rescue.specs.KnownOutcomes.{is_known, is_known_directory, is_known_entry, is_known_node, known_bounds, known_outcome, known_outcomes, known_volume, left_outcome, lost_outcome};

use crate::lines::lost_count;
use pdp_words::Image;
use vol_archive::is_directory;
use vol_dir::next_entry;
use vol_findings::{Finding, RuleOutcome, RuleOutcomes};
use vol_layout::{Edition, Geometry};
use vol_losses::{is_lost, is_node_lost, is_whole};

/// Returns what the outcomes of the rules for an image in which lost blocks are zeros say of the image as it was. Rule 1 is broken, since blocks are
/// lost. The first violation of rule 3, 4 or 9 counts if it rests on no lost block; else further ones aren't looked for. Of rules 3 to 7 and 9 it is also
/// said that what is left doesn't break them. Everything else isn't checked: rule 2 if the super-block is lost, and rules 8 and 10 to 12, which speak of
/// all blocks, or of what isn't there.
///
/// Costs [`is_whole`] of one directory.
pub fn known_outcomes(
    edition: Edition,
    image: &Image,
    lost: &[bool],
    found: &RuleOutcomes,
) -> RuleOutcomes
    ensures { result ≡ known_outcomes edition image.now lost.now found.now }
{
    let known = RuleOutcomes {
        whole: lost_outcome(lost),
        bounded: known_bounds(lost, found.bounded),
        ..*found
    };
    match Geometry::read(edition, image) {
        Ok(geometry) => known_volume(image, &geometry, lost, &known),
        Err(_) => known,
    }
}

/// Returns the outcome of rule 1 for an image with lost blocks: how many are lost, and the first.
fn lost_outcome(lost: &[bool]) -> RuleOutcome
    ensures { result ≡ lost_outcome lost.now }
{
    RuleOutcome::Lost(lost_count(lost), first_lost(lost).unwrap_or(0))
}

/// Returns the first lost block, if there is one.
fn first_lost(lost: &[bool]) -> Option<usize>
    ensures { result ≡ position (λ mark. mark) lost.now }
{
    lost.iter().position(|mark| *mark)
}

/// Returns the outcome of rule 2, which rests on the super-block alone.
fn known_bounds(lost: &[bool], bounded: RuleOutcome) -> RuleOutcome
    ensures { result ≡ known_bounds lost.now bounded }
{
    if is_lost(lost, 1) {
        RuleOutcome::NotAsked
    } else {
        bounded
    }
}

/// Returns the outcomes of an image with a geometry: those of rules 3 to 12 as far as they are known.
fn known_volume(
    image: &Image,
    geometry: &Geometry,
    lost: &[bool],
    found: &RuleOutcomes,
) -> RuleOutcomes
    requires { Fits geometry.now image.now }
    ensures { result ≡ known_volume geometry.now image.now lost.now found.now }
{
    RuleOutcomes {
        whole: found.whole,
        bounded: found.bounded,
        kinds: known_outcome(image, geometry, lost, found.kinds),
        sizes: known_outcome(image, geometry, lost, found.sizes),
        zoned: left_outcome(found.zoned),
        listed: left_outcome(found.listed),
        apart: left_outcome(found.apart),
        covered: RuleOutcome::NotAsked,
        entries: known_outcome(image, geometry, lost, found.entries),
        dots: RuleOutcome::NotAsked,
        tree: RuleOutcome::NotAsked,
        links: RuleOutcome::NotAsked,
    }
}

/// Returns what the outcome of a rule says of what is left, if no violation is known to rest on no lost block.
fn left_outcome(outcome: RuleOutcome) -> RuleOutcome
    ensures { result ≡ left_outcome outcome }
{
    match outcome {
        RuleOutcome::Holds => RuleOutcome::Unbroken,
        _ => RuleOutcome::NotAsked,
    }
}

/// Returns what the outcome of a rule about i-nodes or entries says of the image as it was.
fn known_outcome(
    image: &Image,
    geometry: &Geometry,
    lost: &[bool],
    outcome: RuleOutcome,
) -> RuleOutcome
    requires { Fits geometry.now image.now }
    ensures { result ≡ known_outcome geometry.now image.now lost.now outcome }
{
    match outcome {
        RuleOutcome::Broken(finding) if is_known(image, geometry, lost, finding) => outcome,
        _ => left_outcome(outcome),
    }
}

/// True if what a finding of rule 3, 4 or 9 rests on isn't lost. False for findings of other rules.
fn is_known(image: &Image, geometry: &Geometry, lost: &[bool], finding: Finding) -> bool
    requires { Fits geometry.now image.now }
    ensures { result ≡ is_known geometry.now image.now lost.now finding }
{
    match finding {
        Finding::OddMode(i) | Finding::TooLarge(i) | Finding::TooManyLinks(i) => {
            is_known_node(geometry, lost, i)
        }
        Finding::RootKind => is_known_node(geometry, lost, geometry.edition.constants().root),
        Finding::BadBlocksKind => is_known_node(geometry, lost, 1),
        Finding::PartSlot(d)
        | Finding::NoName(d, _)
        | Finding::Slash(d, _)
        | Finding::BadNumber(d, _)
        | Finding::SameName(d, _) => is_known_directory(image, geometry, lost, d),
        Finding::FreeInode(d, s) => {
            is_known_directory(image, geometry, lost, d)
                && is_known_entry(image, geometry, lost, d, s)
        }
        _ => false,
    }
}

/// True if `i` is an i-number of the volume whose i-node isn't lost.
fn is_known_node(geometry: &Geometry, lost: &[bool], i: u16) -> bool
    ensures { result ≡ is_known_node geometry.now lost.now i }
{
    1 <= i && i <= geometry.last_inode && !is_node_lost(geometry, lost, i)
}

/// True if `d` is a directory of which nothing is lost.
fn is_known_directory(image: &Image, geometry: &Geometry, lost: &[bool], d: u16) -> bool
    requires { Fits geometry.now image.now }
    ensures { result ≡ is_known_directory geometry.now image.now lost.now d }
{
    is_directory(image, geometry, d) && is_whole(image, geometry, lost, d)
}

/// True if slot `s` of directory `d` has an entry for an i-number of the volume whose i-node isn't lost.
fn is_known_entry(image: &Image, geometry: &Geometry, lost: &[bool], d: u16, s: u32) -> bool
    requires { Fits geometry.now image.now }
    ensures { result ≡ is_known_entry geometry.now image.now lost.now d s }
{
    if !is_directory(image, geometry, d) {
        return false;
    }
    match next_entry(image, geometry, d, s) {
        Some((t, slot)) => t == s && is_known_node(geometry, lost, slot.inode),
        None => false,
    }
}
