//! Volumes for programs in C, Python and Rust: a handle, and functions on it.
#![tactic(auto)]

mod answers;
mod calls;
mod handle;
mod kept;
mod looks;
mod loose;
mod names;
mod open;
mod open_volume;
mod queries;
mod repair;
mod repaired;
mod sealed;
mod structs;

pub use answers::{unixvol_answer, unixvol_answer_size, unixvol_export, unixvol_report};
pub use calls::{
    unixvol_chmod, unixvol_chown, unixvol_create, unixvol_cut, unixvol_link, unixvol_mkdir,
    unixvol_mknod, unixvol_rmdir, unixvol_times, unixvol_truncate, unixvol_unlink, unixvol_write,
};
pub use handle::Handle;
pub use looks::{unixvol_compare, unixvol_look, unixvol_rescue};
pub use names::unixvol_name;
pub use open::{
    unixvol_close, unixvol_image, unixvol_judge, unixvol_mkfs, unixvol_open, unixvol_size,
};
pub use queries::{unixvol_about, unixvol_list, unixvol_read, unixvol_stat};
pub use repair::{unixvol_explain, unixvol_salvage};
pub use repaired::unixvol_repair;
pub use structs::{ListedName, Node, RepairedLine, RescueView, Seen, View, VolumeSizes};

/// Done.
pub const DONE: i32 = 0;

/// An allocation was refused. Nothing was changed.
pub const NO_MEMORY: i32 = 12;

/// There is no room for the directories or entries that a repair needs.
pub const NO_SPACE: i32 = 28;

/// The image wasn't repaired: its copy isn't sound after all edits, or a file that was well by itself would have changed.
pub const NOT_REPAIRED: i32 = 112;

/// The bytes are not a sound volume; the number of the broken rule, 1 to 12, is added.
pub const UNSOUND: i32 = 200;

/// The user or group number is above the edition's highest.
pub const BAD_ID: i32 = 104;

/// The handle holds no volume.
pub const CLOSED: i32 = 300;

/// The edition is neither 6 nor 7.
pub const NO_EDITION: i32 = 301;

/// The buffer doesn't have the required size.
pub const NO_ROOM: i32 = 302;

/// No volume can have these sizes.
pub const BOUNDS: i32 = 303;

/// The journal can't be cut, since a record's number would reach 2^64.
pub const TOO_MANY: i32 = 304;

/// No checker has this letter.
pub const NO_REPORT: i32 = 305;

/// There is no such look or comparison, as a map of one file in JSON; or a path isn't UTF-8.
pub const NO_LOOK: i32 = 306;

/// No kind of device has this letter.
pub const NO_DEVICE: i32 = 307;

/// The i-node at a path, or with an i-number.
pub const LOOK_INODE: u8 = 1;

/// The super-block.
pub const LOOK_SUPER: u8 = 2;

/// How much space is used.
pub const LOOK_DF: u8 = 3;

/// The chain of the free list.
pub const LOOK_FREE: u8 = 4;

/// The owners of a block.
pub const LOOK_BLOCK: u8 = 5;

/// The paths below a directory.
pub const LOOK_FIND: u8 = 6;

/// The manifest of everything below a directory.
pub const LOOK_SUMS: u8 = 7;

/// Whether each rule of soundness holds.
pub const LOOK_CHECK: u8 = 8;

/// The use of each block, or as text of the blocks of the file or directory at the path.
pub const LOOK_MAP: u8 = 9;

/// The same, as a picture in SVG.
pub const LOOK_SVG: u8 = 10;

/// The slots of a directory.
pub const LOOK_SLOTS: u8 = 11;

/// The names in a directory, with attributes.
pub const LOOK_LIST: u8 = 12;

/// The bytes of a block, field by field.
pub const LOOK_DUMP: u8 = 13;

/// The bytes of an i-node, field by field.
pub const LOOK_DUMP_NODE: u8 = 14;

/// By the trees of the images.
pub const BY_TREE: u8 = 1;

/// By the trees of the images, with all times.
pub const BY_ALL_TIMES: u8 = 2;

/// By the fields of the images.
pub const BY_FIELDS: u8 = 3;

/// By the fields of the images, each in a line.
pub const BY_ALL_FIELDS: u8 = 4;

/// By the trees of the images, in JSON.
pub const BY_TREE_JSON: u8 = 5;

/// By the trees of the images, with all times, in JSON.
pub const BY_ALL_TIMES_JSON: u8 = 6;

/// By the fields of the images, in JSON.
pub const BY_FIELDS_JSON: u8 = 7;

/// By the fields of the images, each by itself, in JSON.
pub const BY_ALL_FIELDS_JSON: u8 = 8;
