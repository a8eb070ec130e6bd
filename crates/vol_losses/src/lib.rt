//! The lost blocks of an image, and what of it can be trusted without them.
#![tactic(auto)]

pub mod bad_images;
pub mod cut_images;
pub mod given_sizes;
pub mod laws;
pub mod loss_texts;
pub mod ranges;
pub mod spans;
pub mod sure_blocks;

pub use bad_images::{RescueFault, rescued};
pub use cut_images::{CutFault, CutImage, MOST_MISSING, completed, filled};
pub use given_sizes::VolumeSizes;
pub use loss_texts::loss_text;
pub use ranges::{LostRange, losses};
pub use spans::{LostSpan, lost_spans};
pub use sure_blocks::{is_lost, is_node_lost, is_unsure, is_whole, next_block};
