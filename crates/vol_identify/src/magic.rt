//! Files that aren't volumes, by their first bytes.
ghost use Rattle.std.specs.Prelude.{◌≡◌, ◌≤◌, length};
ghost use Rattle.vol_identify.specs.Magic.{packing_of, is_tar, is_ext2};

use pdp_words::Image;
use ustar::read_header;

/// The program that packed a file.
#[derive(Clone, Copy)]
pub enum Packing {
    /// gzip.
    Gzip,
    /// bzip2.
    Bzip2,
    /// xz.
    Xz,
    /// zstd.
    Zstd,
    /// zip.
    Zip,
}

/// Returns the program that packed a file, by the file's first bytes.
#[tactic(auto, unfolding(crate::specs::Magic::packing_of))]
pub fn packing_of(bytes: &[u8]) -> Option<Packing>
    ensures { result ≡ packing_of bytes.now }
{
    if bytes.starts_with(b"\x1F\x8B") {
        Some(Packing::Gzip)
    } else if bytes.starts_with(b"BZh") {
        Some(Packing::Bzip2)
    } else if bytes.starts_with(b"\xFD7zXZ\0") {
        Some(Packing::Xz)
    } else if bytes.starts_with(b"\x28\xB5\x2F\xFD") {
        Some(Packing::Zstd)
    } else if bytes.starts_with(b"PK\x03\x04") {
        Some(Packing::Zip)
    } else {
        None
    }
}

/// True if the first block is a header of tar, with its checksum.
pub(crate) fn is_tar(image: &Image) -> bool
    ensures { result ≡ is_tar image.now }
{
    image.len() >= 512 && read_header(image.block(0)).is_ok()
}

/// True if the super-block of Linux's ext2 and its successors is there: it begins at byte 1024.
pub(crate) fn is_ext2(image: &Image) -> bool
    requires { 1536 ≤ length image.now }
    ensures { result ≡ is_ext2 image.now }
{
    image.word(1080) == 0xEF53
}
