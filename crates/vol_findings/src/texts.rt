//! The text of findings.
ghost use Rattle.std.specs.Prelude.{◌≡◌, Some};
ghost use Rattle.vol_findings.specs.Texts.{words_of, spot_of, spot_text, outcome_text};

use crate::outcome::RuleOutcome;
use std::fmt;
use vol_judge::Finding;

/// The position of a finding.
#[derive(Clone, Copy, Drop)]
pub enum Spot {
    /// The whole image.
    Image,
    /// An i-node.
    Inode(u16),
    /// A number in the block map of an i-node.
    Number(u16, u32),
    /// A count or number of the free list.
    Count(u32),
    /// A block of an i-node.
    BlockOf(u16, u32),
    /// A block.
    Block(u32),
    /// A directory.
    Directory(u16),
    /// A slot of a directory.
    Slot(u16, u32),
    /// An i-node, the number of its entries and its link count.
    Links(u16, u64, u16),
}

impl fmt::Display for Spot {
    ghost output = { λ spot. Some (spot_text spot) };

    fn fmt<W: fmt::Write>(&self, f: &mut fmt::Formatter<W>) -> fmt::Result {
        match *self {
            Spot::Image => Ok(()),
            Spot::Inode(i) => write!(f, ": i-node {i}"),
            Spot::Number(i, n) => write!(f, ": i-node {i}, number {n}"),
            Spot::Count(n) => write!(f, ": {n}"),
            Spot::BlockOf(i, b) => write!(f, ": i-node {i}, block {b}"),
            Spot::Block(b) => write!(f, ": block {b}"),
            Spot::Directory(d) => write!(f, ": directory {d}"),
            Spot::Slot(d, s) => write!(f, ": directory {d}, slot {s}"),
            Spot::Links(i, entries, links) => {
                write!(f, ": i-node {i}, entries {entries}, links {links}")
            }
        }
    }
}

impl fmt::Display for RuleOutcome {
    ghost output = { λ outcome. Some (outcome_text outcome) };

    fn fmt<W: fmt::Write>(&self, f: &mut fmt::Formatter<W>) -> fmt::Result {
        match *self {
            RuleOutcome::Holds => write!(f, "holds"),
            RuleOutcome::Broken(finding) => {
                let words = words_of(finding);
                let spot = spot_of(finding);
                write!(f, "{words}{spot}")
            }
            RuleOutcome::NotAsked => write!(f, "not asked"),
            RuleOutcome::Lost(count, first) => {
                write!(f, "{count} blocks are lost, the first is {first}")
            }
            RuleOutcome::Unbroken => write!(f, "not broken by what is left"),
        }
    }
}

/// Returns the words for a finding.
pub fn words_of(finding: Finding) -> &'static str
    ensures { result.now ≡ words_of finding }
{
    match finding {
        Finding::TooShort => "the image is too short",
        Finding::BadSizes => "the sizes are no volume's",
        Finding::OddMode(_) => "an odd mode",
        Finding::RootKind => "the root is no directory",
        Finding::BadBlocksKind => "i-node 1 is neither free nor a file",
        Finding::TooLarge(_) => "too large",
        Finding::TooManyLinks(_) => "too many links",
        Finding::OutOfZone(_, _) => "no data block",
        Finding::FreeList(fault, _) => fault.word(),
        Finding::Twice(_, _) => "named twice",
        Finding::UsedAndFree(_) => "named and free",
        Finding::Lost(_) => "neither named nor free",
        Finding::PartSlot(_) => "part of a slot",
        Finding::NoName(_, _) => "no name",
        Finding::Slash(_, _) => "a slash in a name",
        Finding::BadNumber(_, _) => "no i-number of the volume",
        Finding::FreeInode(_, _) => "a free i-node",
        Finding::SameName(_, _) => "a name that comes before",
        Finding::NoDot(_) => "no . for itself",
        Finding::NoDotDot(_) => "no .. for its parent",
        Finding::RootEntered(_, _) => "an entry for the root",
        Finding::EnteredTwice(_, _) => "a second entry for a directory",
        Finding::Unreached(_) => "not reached from the root",
        Finding::BadLinks(_, _, _) => "a wrong link count",
    }
}

/// Returns the position of a finding.
pub fn spot_of(finding: Finding) -> Spot
    ensures { result ≡ spot_of finding }
{
    match finding {
        Finding::TooShort | Finding::BadSizes | Finding::RootKind | Finding::BadBlocksKind => {
            Spot::Image
        }
        Finding::OddMode(i) | Finding::TooLarge(i) | Finding::TooManyLinks(i) => Spot::Inode(i),
        Finding::OutOfZone(i, n) => Spot::Number(i, n),
        Finding::FreeList(_, n) => Spot::Count(n),
        Finding::Twice(i, b) => Spot::BlockOf(i, b),
        Finding::UsedAndFree(b) | Finding::Lost(b) => Spot::Block(b),
        Finding::PartSlot(d) | Finding::NoDot(d) | Finding::NoDotDot(d) | Finding::Unreached(d) =>
            Spot::Directory(d),
        Finding::NoName(d, s)
        | Finding::Slash(d, s)
        | Finding::BadNumber(d, s)
        | Finding::FreeInode(d, s)
        | Finding::SameName(d, s)
        | Finding::RootEntered(d, s)
        | Finding::EnteredTwice(d, s) => Spot::Slot(d, s),
        Finding::BadLinks(i, entries, links) => Spot::Links(i, entries, links),
    }
}
