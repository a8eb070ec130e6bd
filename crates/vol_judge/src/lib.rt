//! The judge of volumes: finds the first of the twelve rules of soundness that an image breaks.
#![tactic(auto)]

mod directories;
mod entries;
pub mod entry_walk;
mod finding;
mod free_list;
mod i_nodes;
mod lost;
mod outside_blocks;
mod rules;
mod shared_blocks;
mod used_blocks;
mod verdict;

pub use directories::{Entered, Ups, find_dots, find_entered, find_link, find_tree, find_ups};
pub use entries::find_entry;
pub use finding::Finding;
pub use free_list::{FreeStack, find_fault};
pub use i_nodes::{find_kind, find_size};
pub use lost::find_lost;
pub use outside_blocks::find_outside;
pub use rules::Rule;
pub use shared_blocks::{find_twice, named_blocks};
pub use used_blocks::mark_named;
pub use verdict::{Examined, examine, judge};
