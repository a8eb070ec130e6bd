//! The directories of a volume: their entries, and path lookup.
#![tactic(auto)]

pub mod access;
pub mod add_entry;
pub mod cred;
pub mod directories;
pub mod entries;
pub mod laws;
pub mod listing;
pub mod path_walk;
pub mod paths;
pub mod refusal;
pub mod remove_entry;
pub mod repeats;

pub use access::{Access, grants};
pub use add_entry::{add, add_at};
pub use cred::Cred;
pub use directories::{DirectoryFault, FoundDirectory, directory_at, find_directory};
pub use entries::{Entry, find, is_dots, is_empty_dir, lookup, next_entry, place_for};
pub use listing::{list_names, name_key};
pub use path_walk::{walk, walk_parent};
pub use paths::{is_plain, split_component};
pub use refusal::Refusal;
pub use remove_entry::{remove, remove_at};
pub use repeats::{next_entry_marked, next_unmarked};
