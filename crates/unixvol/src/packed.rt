//! Compressed files, which no command reads.
use vol_identify::{Packing, packing_of};

/// Returns the message for a compressed file, which is recognized by its first bytes.
pub fn packed_words(bytes: &[u8]) -> Option<&'static str> {
    match packing_of(bytes)? {
        Packing::Gzip => Some("it is a gzip file: `gzip -dc` prints the archive in it"),
        Packing::Bzip2 => Some("it is a bzip2 file: `bzip2 -dc` prints the archive in it"),
        Packing::Xz => Some("it is an xz file: `xz -dc` prints the archive in it"),
        Packing::Zstd => Some("it is a zstd file: `zstd -dc` prints the archive in it"),
        Packing::Zip => Some("it is a zip file, and no archive of tar"),
    }
}

/// Returns the command that prints what is in a compressed file.
pub fn unpacker(packing: Packing) -> &'static str {
    match packing {
        Packing::Gzip => "gzip -dc",
        Packing::Bzip2 => "bzip2 -dc",
        Packing::Xz => "xz -dc",
        Packing::Zstd => "zstd -dc",
        Packing::Zip => "unzip -p",
    }
}
