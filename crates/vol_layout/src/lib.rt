//! The layout of a volume in both editions: reads and writes its geometry, super-block, i-nodes and directory slots.
#![tactic(auto)]

pub mod block_map;
pub mod edition;
pub mod geometry;
pub mod i_list;
pub mod i_node;
pub mod ids;
pub mod laws;
pub mod mode;
pub mod numbers;
pub mod slot;
pub mod super_block;

pub use block_map::{BlockMap, BlockPath};
pub use edition::{Constants, Edition};
pub use geometry::{Geometry, GeometryFault};
pub use i_list::{
    clear_addresses, clear_inode, copy_addresses, inode, put_address, put_inode, put_mode, put_size,
};
pub use i_node::Inode;
pub use ids::is_bad_id;
pub use mode::{DeviceId, DeviceKind, Kind, Mode};
pub use numbers::{number, put_number};
pub use slot::Slot;
pub use super_block::{Flag, Super};
