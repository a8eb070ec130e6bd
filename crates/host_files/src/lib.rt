//! Files of the host that hold an image: opening and locking them, noticing changes, and saving.
#![tactic(auto)]

mod acts;
mod archive_front;
mod filling;
mod folders;
mod holed_file;
mod holes;
mod image_file;
mod made_folders;
mod marks;
mod noted;
mod pack;
mod progress;
mod saved_files;
mod system;
mod tree;
mod volume_front;
mod watched;
mod watched_stream;

pub use folders::{FolderListing, Found, FoundKind, stack_found};
pub use holes::{HoleSink, SinkFailed, write_with_holes};
pub use image_file::{
    FileKind, OpenFault, Stamp, expect_image, open_image, open_sized, open_stamped,
};
pub use made_folders::{make_folder, mark_folder};
pub use marks::{Marks, modified_in, permissions_of};
pub use noted::{Noted, noted_reader, noted_writer};
pub use pack::{MoveFault, SpliceFault, moved_to, splice};
pub use progress::{ProgressLine, Stage};
pub use saved_files::{
    Content, HeldFile, VolumePart, is_pipe, save_apart, save_file, save_held, save_marked,
    save_volume, save_whole,
};
pub use system::ImageFiles;
pub use tree::{TreeFault, tree_below};
pub use volume_front::{FrontFault, UpTo, read_on, read_up_to};
pub use watched::{WatchedFile, WatchedHost};
pub use watched_stream::WatchedStream;
