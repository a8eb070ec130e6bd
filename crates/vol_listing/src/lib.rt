//! Listings of a volume: their contents and their lines.
#![tactic(auto)]

mod dates;
mod directories;
pub mod json;
mod known_sums;
pub mod laws;
mod lines;
pub mod listing;
mod listing_json;
mod long_lines;
mod options;
mod places;
mod rows;
pub mod sums;

pub use dates::push_moment;
pub use lines::push_shown;
pub use listing::{list, shown_path};
pub use long_lines::kind_letters;
pub use options::{Depth, Lines, ListOptions, Screen};
pub use places::joined;
pub use rows::special_word;
pub use sums::{sums_json, sums_text};
