//! Loading an image from a source.
ghost use Rattle.std.specs.Prelude.{◌≡◌, false, true, IfOk, OnOk, OnErr, IsErrOf};
ghost use Rattle.pdp_words.specs.Devices.{IsReadWhole, LosesFront};

use crate::device::Source;
use crate::image::Image;
use std::alloc::Global;
use thiserror::Error;

/// The reason why an image was not loaded.
#[derive(Debug, Clone, Copy, PartialEq, Eq, Error)]
pub enum LoadFault {
    /// The source returned an error.
    #[error("the image could not be read")]
    Device,
    /// Out of memory.
    #[error("out of memory")]
    NoMemory,
}

/// The number of bytes requested by one read.
const PIECE: usize = 64 * 1024;

/// Loads an image from all bytes of `source`, up to its end. Returns `Device` if the source fails, and `NoMemory` if memory runs out; the bytes read
/// so far are lost in both cases.
///
/// Takes memory only for the image. Its vector doubles as it grows, so its capacity is at most twice the size of the image, and only the bytes read
/// are resident. If the allocator has to move the vector, the old and the new one exist at the same time, so at most twice the size of the image is
/// resident. A buffer of 64 KiB is on the stack.
pub fn load<S: Source>(alloc: Global, source: &mut S) -> Result<Image, LoadFault>
    requires { S.failed source.old ≡ false }
    ensures ok { IfOk result (λ image. IsReadWhole (S.remaining source.old) (S.remaining source.new) image) }
    ensures front { OnErr result (LosesFront (S.remaining source.old) (S.remaining source.new)) }
    ensures working { OnOk result (S.failed source.new ≡ false) }
    ensures device { IsErrOf result LoadFault.Device → S.failed source.new ≡ true }
    ensures memory { IsErrOf result LoadFault.NoMemory → S.failed source.new ≡ false }
{
    load_with_capacity(alloc, 0, source)
}

/// Loads an image as [`load`] does, into a vector with an initial capacity of `capacity` bytes, which doesn't grow if the source has no more bytes.
/// Also returns `NoMemory` if this capacity can't be allocated.
pub fn load_with_capacity<S: Source>(
    alloc: Global,
    capacity: usize,
    source: &mut S,
) -> Result<Image, LoadFault>
    requires { S.failed source.old ≡ false }
    ensures ok { IfOk result (λ image. IsReadWhole (S.remaining source.old) (S.remaining source.new) image) }
    ensures front { OnErr result (LosesFront (S.remaining source.old) (S.remaining source.new)) }
    ensures working { OnOk result (S.failed source.new ≡ false) }
    ensures device { IsErrOf result LoadFault.Device → S.failed source.new ≡ true }
    ensures memory { IsErrOf result LoadFault.NoMemory → S.failed source.new ≡ false }
{
    let mut bytes = Vec::with_capacity(alloc, capacity).map_err(|_| LoadFault::NoMemory)?;
    let mut piece = [0; PIECE];
    'pieces: loop {
        let Ok(count) = source.read(&mut piece) else {
            return Err(LoadFault::Device);
        };
        if count == 0 {
            return Ok(Image::from_bytes(bytes));
        }
        if bytes.extend_from_slice(&piece[..count]).is_err() {
            return Err(LoadFault::NoMemory);
        }
    }
}
