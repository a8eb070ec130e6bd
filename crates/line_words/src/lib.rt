//! Lines of text, their words, and numbers in words.
#![tactic(auto)]

pub mod numbers;
pub mod pieces;

pub use numbers::number_in;
pub use pieces::{Pieces, next_word};
