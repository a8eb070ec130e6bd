//! Lists of what a new volume has, as texts, and the archives that `import` makes of them.
#![tactic(auto)]

pub mod archive;
mod draft;
pub mod faults;
pub mod laws;
pub mod list;
mod member_lines;
pub mod members;
pub mod texts;
mod words;

pub use archive::{FilledMember, archive_of};
pub use faults::{ListFault, ListFlaw, ListWord};
pub use list::{PackList, read_list};
pub use members::{
    HostPath, ListedMember, ListedOwner, ListedPath, ListedVolume, NodeMarks, RootMarks,
    VolumeSizes,
};
pub use texts::list_text;
pub use words::{is_list_word, is_path};
