//! Which field of a volume each byte is in, and which fields differ between two images.
#![tactic(auto)]

pub mod changes;
mod diff_lines;
mod differences;
pub mod field;
mod field_groups;
mod groups;
pub mod laws;
mod lines;
mod names;
mod role;
mod role_changes;
mod role_table;
mod rows;
mod runs;
mod tables;
mod titles;
mod values;

pub use changes::changed_fields;
pub use diff_lines::{changed_bytes, diff_text, field_bytes, former_text, is_kept, place_in};
pub use differences::{Difference, MappedImage, list_differences};
pub use field::{Field, field_at, role_at};
pub use lines::{Radix, first_bytes, push_row};
pub use names::{Name, ValueKind};
pub use role::Role;
pub use role_table::block_roles;
pub use rows::{Row, rows_of};
pub use runs::Spot;
pub use titles::block_titles;
pub use values::{inode_meaning, number_in, pointer_meaning, shown_name};
