//! Bytes as the PDP-11 stores them: words, longs and three-byte addresses. Also the image of a volume, the devices that it is loaded from and saved
//! to, and bytes that are passed on as one value.
#![tactic(auto)]

pub mod bytes;
pub mod device;
pub mod from_read;
pub mod image;
pub mod into_write;
pub mod load_image;
pub mod save_image;
pub mod test_streams;
pub mod words;

pub use bytes::Bytes;
pub use device::{Sink, Source};
pub use from_read::FromRead;
pub use image::{BLOCK, Image};
pub use into_write::{IntoWrite, write_uninterrupted};
pub use load_image::{LoadFault, load, load_with_capacity};
pub use save_image::{SaveFault, save, write_all};
pub use words::{addr3, long, put_addr3, put_long, put_word, word};
