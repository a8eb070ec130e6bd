//! Reads numbers, bytes and kinds of devices in scripts.
ghost use Rattle.std.specs.Prelude.{◌≡◌, ◌≤◌};
ghost use Rattle.line_words.specs.Numbers.{number_in};
ghost use Rattle.vol_scripts.specs.Numbers.{long_in, short_in, byte_in, permissions_in, bytes_in, device_kind_in};
ghost use Rattle.vol_scripts.specs.Scripts.{Reads};

use crate::lines::LineFault;
use crate::texts::device_letter;
use hex::FromHexError;
use line_words::number_in;
use std::alloc::Global;
use vol_layout::DeviceKind;
use vol_volume::Bytes;

/// The greatest permissions: all twelve bits.
const ALL_PERMISSIONS: u16 = 0o7777;

/// Reads a 32-bit decimal number.
pub(crate) fn long_in(word: &[u8]) -> Option<u32>
    ensures { result ≡ long_in word.now }
{
    let number = number_in(10, u64::from(u32::MAX), word)?;
    Some(number as u32)
}

/// Reads a 16-bit decimal number.
pub(crate) fn short_in(word: &[u8]) -> Option<u16>
    ensures { result ≡ short_in word.now }
{
    short_number_in(10, u16::MAX, word)
}

/// Reads an 8-bit decimal number.
pub(crate) fn byte_in(word: &[u8]) -> Option<u8>
    ensures { result ≡ byte_in word.now }
{
    let number = number_in(10, u64::from(u8::MAX), word)?;
    Some(number as u8)
}

/// Reads permissions, an octal number.
pub(crate) fn permissions_in(word: &[u8]) -> Option<u16>
    ensures { result ≡ permissions_in word.now }
{
    short_number_in(8, ALL_PERMISSIONS, word)
}

/// Reads a number in this radix that is at most `most`, a 16-bit number.
fn short_number_in(radix: u32, most: u16, word: &[u8]) -> Option<u16>
    requires least { 2 ≤ radix }
    requires greatest { radix ≤ 36 }
    ensures { result ≡ number_in radix most word.now }
{
    let number = number_in(radix, u64::from(most), word)?;
    Some(number as u16)
}

/// Reads bytes: two hexadecimal digits of either case for each byte, or a hyphen for no bytes. Costs the length of the word.
pub(crate) fn bytes_in(alloc: Global, word: &[u8]) -> Result<Bytes, LineFault>
    ensures { Reads (bytes_in word.now) result }
{
    if word == b"-".as_slice() {
        return Ok(Bytes::from_vec(Vec::new(alloc)));
    }
    if word.is_empty() {
        return Err(LineFault::Unreadable);
    }
    match hex::decode(alloc, word) {
        Ok(bytes) => Ok(Bytes::from_vec(bytes)),
        Err(FromHexError::OutOfMemory) => Err(LineFault::NoMemory),
        Err(_) => Err(LineFault::Unreadable),
    }
}

/// Reads the letter of a kind of device.
pub(crate) fn device_kind_in(word: &[u8]) -> Option<DeviceKind>
    ensures { result ≡ device_kind_in word.now }
{
    [DeviceKind::Character, DeviceKind::Block]
        .iter()
        .copied()
        .find(|kind| device_letter(*kind).as_bytes() == word)
}
