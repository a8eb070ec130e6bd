//! Which bytes of a file were read, and which couldn't be: maps of GNU ddrescue, and lists of blocks.
#![tactic(auto)]

pub mod laws;
pub mod lines;
pub mod lists;
pub mod maps;
pub mod words;

pub use lines::LineFault;
pub use lists::{ListFault, read_list};
pub use maps::{MapFault, ReadRange, read_map};
