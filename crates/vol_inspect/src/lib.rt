//! Looks into an image: shows an i-node with its blocks, the super-block, and the use of each block, with pictures of the uses.
#![tactic(auto)]

mod cell_groups;
mod drawing;
mod extent;
mod extents;
mod fault;
pub mod free_chain;
mod free_list;
pub mod holders;
mod inode_report;
pub mod laws;
mod legend;
mod lost;
mod owner_texts;
pub mod owners;
mod place_counts;
mod shares;
mod shown_blocks;
mod space;
pub mod super_report;
mod svg_picture;
mod texts;
mod uses;

pub use cell_groups::{Cell, cells};
pub use drawing::draw;
pub use extent::Extent;
pub use fault::InspectFault;
pub use free_chain::{ChainReport, FreeLink, inspect_chain};
pub use inode_report::{InodeReport, inspect_inode};
pub use lost::lost_inodes;
pub use owner_texts::push_owners;
pub use owners::{Owner, inspect_block};
pub use shares::shared_blocks;
pub use shown_blocks::{all_shown, node_uses, shown_uses};
pub use space::in_use;
pub use super_report::{SuperReport, inspect_super};
pub use svg_picture::svg;
pub use texts::kind_name;
pub use uses::{Use, block_uses};
