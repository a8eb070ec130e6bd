//! The outcome of each rule.
ghost use Rattle.std.specs.Prelude.{◌≡◌, ◌+◌, IfOk, length};
ghost use Rattle.vol_layout.specs.Geometry.{Fits};
ghost use Rattle.vol_dir.specs.Entries.{HasEntries};
ghost use Rattle.vol_judge.specs.Directories.{HasDots};
ghost use Rattle.vol_judge.specs.Dots.{KnowsDots, IsFirstDots};
ghost use Rattle.vol_judge.specs.Entries.{IsFirstEntry};
ghost use Rattle.vol_judge.specs.DirectoryTree.{NotesParents};
ghost use Rattle.vol_findings.specs.Outcomes.{Says, TellsVolume, Tells, outcome_of};

use crate::blocks::check_blocks;
use pdp_words::Image;
use std::alloc::{AllocError, Global};
use vol_judge::{
    Finding, Ups, find_dots, find_entered, find_entry, find_kind, find_link, find_size, find_tree,
    find_ups,
};
use vol_layout::{Edition, Geometry, GeometryFault};

/// The outcome of a rule.
#[derive(Clone, Copy)]
pub enum RuleOutcome {
    /// The rule holds.
    Holds,
    /// The rule doesn't hold; this is its first violation.
    Broken(Finding),
    /// The rule isn't checked, because a rule that it needs doesn't hold, or because of what is lost.
    NotAsked,
    /// Rule 1 doesn't hold, since blocks are lost: how many, and the first.
    Lost(usize, usize),
    /// What is left of an image with lost blocks doesn't break the rule.
    Unbroken,
}

/// The outcomes of the twelve rules, in order.
#[derive(Clone, Copy)]
pub struct RuleOutcomes {
    /// Rule 1: the image has all blocks of the volume.
    pub whole: RuleOutcome,
    /// Rule 2: the sizes are within their limits. Needs rule 1; all other rules need both.
    pub bounded: RuleOutcome,
    /// Rule 3: the kinds of i-nodes.
    pub kinds: RuleOutcome,
    /// Rule 4: the sizes and link counts of i-nodes.
    pub sizes: RuleOutcome,
    /// Rule 5: block maps point only to data blocks.
    pub zoned: RuleOutcome,
    /// Rule 6: the free list is a stack.
    pub listed: RuleOutcome,
    /// Rule 7: no block is used twice. Needs rule 5, and also rule 6 unless two block-map positions of files point to one block.
    pub apart: RuleOutcome,
    /// Rule 8: no block is lost. Needs rule 6.
    pub covered: RuleOutcome,
    /// Rule 9: the entries of directories.
    pub entries: RuleOutcome,
    /// Rule 10: the entries `.` and `..`. Needs rule 9.
    pub dots: RuleOutcome,
    /// Rule 11: the tree of directories.
    pub tree: RuleOutcome,
    /// Rule 12: the link counts.
    pub links: RuleOutcome,
}

/// Returns the outcome of each of the twelve rules: the rule holds, it is broken (with its first violation), or it isn't checked because a rule that
/// it needs is broken. The image may have any bytes.
///
/// The time grows with the image's blocks, with the entries of its directories (counted once for each block-map position that points to their block),
/// and with sorting the names of each directory. The memory is a few bytes for each block and i-number, and the names of one directory at a time.
/// Fails only if memory runs out.
pub fn check_rules(
    alloc: Global,
    edition: Edition,
    image: &Image,
) -> Result<RuleOutcomes, AllocError>
    ensures { IfOk result (Tells edition image.now) }
{
    match Geometry::read(edition, image) {
        Ok(geometry) => check_volume(alloc, image, &geometry),
        Err(GeometryFault::Short) => Ok(RuleOutcomes::unread(
            RuleOutcome::Broken(Finding::TooShort),
            RuleOutcome::NotAsked,
        )),
        Err(GeometryFault::Bounds) => Ok(RuleOutcomes::unread(
            RuleOutcome::Holds,
            RuleOutcome::Broken(Finding::BadSizes),
        )),
    }
}

impl RuleOutcome {
    /// Returns the outcome of a rule that is checked.
    pub(crate) fn of(found: Option<Finding>) -> RuleOutcome
        ensures { result ≡ outcome_of found }
    {
        match found {
            None => RuleOutcome::Holds,
            Some(finding) => RuleOutcome::Broken(finding),
        }
    }
}

impl RuleOutcomes {
    /// Returns the outcomes for an image without a geometry.
    fn unread(whole: RuleOutcome, bounded: RuleOutcome) -> RuleOutcomes
        ensures { result ≡ record {
          whole = whole;
          bounded = bounded;
          kinds = RuleOutcome.NotAsked;
          sizes = RuleOutcome.NotAsked;
          zoned = RuleOutcome.NotAsked;
          listed = RuleOutcome.NotAsked;
          apart = RuleOutcome.NotAsked;
          covered = RuleOutcome.NotAsked;
          entries = RuleOutcome.NotAsked;
          dots = RuleOutcome.NotAsked;
          tree = RuleOutcome.NotAsked;
          links = RuleOutcome.NotAsked;
        } }
    {
        let rest = RuleOutcome::NotAsked;
        RuleOutcomes {
            whole,
            bounded,
            kinds: rest,
            sizes: rest,
            zoned: rest,
            listed: rest,
            apart: rest,
            covered: rest,
            entries: rest,
            dots: rest,
            tree: rest,
            links: rest,
        }
    }
}

/// Checks the rules of a volume whose geometry is known.
fn check_volume(
    alloc: Global,
    image: &Image,
    geometry: &Geometry,
) -> Result<RuleOutcomes, AllocError>
    requires { Fits geometry.now image.now }
    ensures { IfOk result (TellsVolume geometry.now image.now) }
{
    let kinds = RuleOutcome::of(find_kind(image, geometry));
    let sizes = RuleOutcome::of(find_size(image, geometry));
    let blocks = check_blocks(alloc, image, geometry)?;
    let entries = RuleOutcome::of(find_entry(alloc, image, geometry)?);
    let ups = ups_of(alloc, image, geometry, entries)?;
    let found = find_entered(alloc, image, geometry, &ups.numbers)?;
    let dots = check_dots(image, geometry, entries, &ups, &found.parents);
    let tree = RuleOutcome::of(find_tree(alloc, image, geometry, found.again, &found.parents)?);
    let links = RuleOutcome::of(find_link(image, geometry, &found.counts));
    Ok(RuleOutcomes {
        whole: RuleOutcome::Holds,
        bounded: RuleOutcome::Holds,
        kinds,
        sizes,
        zoned: blocks.zoned,
        listed: blocks.listed,
        apart: blocks.apart,
        covered: blocks.covered,
        entries,
        dots,
        tree,
        links,
    })
}

/// Returns the i-number in the `..` entry of each directory, if rule 9 holds.
fn ups_of(
    alloc: Global,
    image: &Image,
    geometry: &Geometry,
    entries: RuleOutcome,
) -> Result<Ups, AllocError>
    requires fits { Fits geometry.now image.now }
    requires entries { Says (HasEntries geometry.now image.now) (IsFirstEntry geometry.now image.now) ⊥ entries }
    ensures room { IfOk result (λ ups. length ups.numbers.items ≡ geometry.now.last_inode + 1) }
    ensures known { IfOk result (λ ups. HasEntries geometry.now image.now → KnowsDots geometry.now image.now ups.numbers.items ups.nameless) }
{
    match entries {
        RuleOutcome::Holds => find_ups(alloc, image, geometry),
        _ => {
            let numbers = vec![in alloc; None; geometry.last_inode as usize + 1]?;
            Ok(Ups {
                numbers,
                nameless: None,
            })
        }
    }
}

/// Returns the outcome of rule 10, from the outcome of rule 9, the `..` of each directory, and the directory that holds an entry for each.
fn check_dots(
    image: &Image,
    geometry: &Geometry,
    entries: RuleOutcome,
    ups: &Ups,
    parents: &[Option<u16>],
) -> RuleOutcome
    requires fits { Fits geometry.now image.now }
    requires entries { Says (HasEntries geometry.now image.now) (IsFirstEntry geometry.now image.now) ⊥ entries }
    requires ups { HasEntries geometry.now image.now → KnowsDots geometry.now image.now ups.now.numbers.items ups.now.nameless }
    requires parents { NotesParents geometry.now image.now ups.now.numbers.items parents.now }
    ensures { Says (HasDots geometry.now image.now) (IsFirstDots geometry.now image.now) (HasEntries geometry.now image.now → ⊥) result }
{
    match entries {
        RuleOutcome::Holds => RuleOutcome::of(find_dots(image, geometry, ups, parents)),
        _ => RuleOutcome::NotAsked,
    }
}
