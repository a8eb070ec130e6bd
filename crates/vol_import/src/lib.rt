//! Reads tar archives, and makes their members with calls on a volume.
#![tactic(auto)]

pub mod archive_members;
mod close;
mod draft;
pub mod entries;
pub mod faults;
pub mod import_options;
pub mod import_plan;
pub mod laws;
pub mod long_names;
pub mod make;
pub mod member_check;
mod records;
mod step_path;

pub use archive_members::{Member, members};
pub use entries::{ArchiveEntry, entry_at};
pub use faults::ArchiveFault;
pub use import_options::ImportOptions;
pub use import_plan::{PlanFault, plan};
pub use long_names::LongNames;
pub use make::{ImportFault, Imported, Planned, calls_with, import, import_with};
pub use member_check::{MOST_PATH_BYTES, MadeAs, MemberFault, check};
