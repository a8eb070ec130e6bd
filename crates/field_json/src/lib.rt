//! The fields of an image as JSON: the rows of a dump, and what differs between two images.
#![tactic(auto)]

mod changes;
mod items;
pub mod laws;
mod meanings;
mod roles;
mod rows;
mod values;

pub use changes::difference_items;
pub use items::{items_json, values_json};
pub use meanings::push_mode_words;
pub use rows::rows_json;
