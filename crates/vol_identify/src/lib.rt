//! Guesses what an unknown image is.
#![tactic(auto)]

mod foreign;
mod front;
mod guess;
mod laws;
mod magic;
mod pack_scan;
mod pack_texts;
mod texts;

pub use foreign::Foreign;
pub use front::{FoundVolume, blocks_wanted};
pub use guess::{Guess, Identified, guess_image, identify};
pub use laws::{sound_volumes_are_found, sound_volumes_are_guessed};
pub use magic::{Packing, packing_of};
pub use pack_scan::{Part, ScanFault, scan_pack};
pub use pack_texts::{JudgedPart, command_text, is_pack, pack_lines};
pub use texts::packing_text;
