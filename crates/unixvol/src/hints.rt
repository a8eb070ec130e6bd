//! What a file seems to hold that breaks rule 1 or rule 2.

use crate::packed::unpacker;
use std::alloc::{AllocError, Global};
use vol_identify::{Guess, Identified};
use vol_layout::Edition;

/// True if a guess says that the file begins with no volume, so that the sizes in it aren't those of one.
pub fn is_no_volume(guess: Guess) -> bool {
    match guess {
        Guess::Volume(_) | Guess::CutOff { .. } | Guess::Unknown => false,
        Guess::Empty
        | Guess::Packed(_)
        | Guess::Tar
        | Guess::Swapped(_)
        | Guess::Ext2
        | Guess::Foreign(_)
        | Guess::Inside { .. } => true,
    }
}

/// Returns what the file of an image seems to hold, and the command to go on with; empty if there is no more to say than the sizes of this edition do.
pub fn hint(
    alloc: Global,
    image: &str,
    edition: Edition,
    guess: Guess,
) -> Result<String, AllocError> {
    let found = Identified {
        guess,
        broken: None,
    };
    match guess {
        Guess::Volume(_) | Guess::Unknown => Ok(String::new(alloc)),
        Guess::CutOff { volume, .. } if volume.edition == edition => Ok(String::new(alloc)),
        Guess::CutOff { .. } | Guess::Empty | Guess::Tar | Guess::Ext2 | Guess::Foreign(_) => {
            format!(in alloc; "; it {found}")
        }
        Guess::Packed(packing) => {
            let command = unpacker(packing);
            format!(in alloc; "; it {found}: `{command} {image}` prints what is in it")
        }
        Guess::Swapped(_) => {
            format!(in alloc; "; it {found}: `dd if={image} of=NEW conv=swab` exchanges them again")
        }
        Guess::Inside { volume, block } => {
            let blocks = volume.blocks;
            format!(in alloc;
                "; it {found}: `dd if={image} of=NEW bs=512 skip={block} count={blocks}` copies it"
            )
        }
    }
}
