//! The words for a guess.
ghost use Rattle.std.specs.Prelude.{◌≡◌, Some};
ghost use Rattle.vol_identify.specs.Texts.{foreign_text, identified_text, packing_text, volume_text};

use crate::foreign::Foreign;
use crate::front::FoundVolume;
use crate::guess::{Guess, Identified};
use crate::magic::Packing;
use std::fmt;
use vol_findings::edition_number;

/// Returns the name of the program that packed a file.
pub fn packing_text(packing: Packing) -> &'static str
    ensures { result.now ≡ packing_text packing }
{
    match packing {
        Packing::Gzip => "gzip",
        Packing::Bzip2 => "bzip2",
        Packing::Xz => "xz",
        Packing::Zstd => "zstd",
        Packing::Zip => "zip",
    }
}

/// Returns the words for a tape or a disk of another system.
fn foreign_text(foreign: Foreign) -> &'static str
    ensures { result.now ≡ foreign_text foreign }
{
    match foreign {
        Foreign::Simh => "a tape in the format of SIMH",
        Foreign::Dump => "a tape of V7's dump",
        Foreign::Tp => "a tape of tp",
        Foreign::Fat => "a volume of FAT",
        Foreign::Rt11 => "a disk of RT-11",
        Foreign::Files11 => "a disk of Files-11",
    }
}

impl fmt::Display for FoundVolume {
    ghost output = { λ volume. Some (volume_text volume) };

    fn fmt<W: fmt::Write>(&self, f: &mut fmt::Formatter<W>) -> fmt::Result {
        let edition = edition_number(self.edition);
        let blocks = self.blocks;
        write!(f, "a volume of edition {edition}, with {blocks} blocks")
    }
}

impl fmt::Display for Identified {
    ghost output = { λ identified. Some (identified_text identified.guess identified.broken) };

    fn fmt<W: fmt::Write>(&self, f: &mut fmt::Formatter<W>) -> fmt::Result {
        match self.guess {
            Guess::Empty => write!(f, "looks empty: it has no bytes but zeros"),
            Guess::Packed(packing) => {
                let name = packing_text(packing);
                write!(f, "looks packed by {name}")
            }
            Guess::Tar => write!(f, "looks like an archive of tar"),
            Guess::Volume(volume) => match self.broken {
                None => write!(f, "looks like {volume}, sound"),
                Some(rule) => write!(f, "looks like {volume}, which breaks rule {rule}"),
            },
            Guess::Swapped(volume) => {
                write!(f, "looks like {volume}, with each pair of bytes exchanged")
            }
            Guess::Ext2 => write!(f, "looks like a volume of ext2, ext3 or ext4"),
            Guess::CutOff { volume, there } => {
                write!(f, "looks like {volume}, cut off after {there}")
            }
            Guess::Foreign(foreign) => {
                let text = foreign_text(foreign);
                write!(f, "looks like {text}")
            }
            Guess::Inside { volume, block } => {
                write!(
                    f,
                    "looks like a larger pack: at block {block} begins {volume}"
                )
            }
            Guess::Unknown => write!(f, "looks like nothing that unixvol knows"),
        }
    }
}
