//! Reads the words after a line's command.
ghost use Rattle.std.specs.Prelude.{◌≡◌, Some, None, MatchOption, IfOk};
ghost use Rattle.vol_scripts.specs.Grammar.{one_of, two_of, three_of, five_of, none_of, cred_in, device_in, path_and_permissions, path_and_length, path_and_owner, path_and_bytes, path_and_numbers, path_and_device};
ghost use Rattle.vol_scripts.specs.Scripts.{Reads};

use crate::lines::LineFault;
use crate::numbers::{byte_in, bytes_in, device_kind_in, long_in, permissions_in, short_in};
use line_words::Pieces;
use std::alloc::Global;
use vol_dir::Cred;
use vol_layout::DeviceId;
use vol_volume::Bytes;

/// Succeeds if no word is left.
pub(crate) fn none_of(mut words: Pieces<'_>) -> Option<()>
    ensures { result ≡ none_of words.entry }
{
    match words.take_next() {
        None => Some(()),
        Some(_) => None,
    }
}

/// Returns the one word that is left, if there is exactly one.
fn one_of<'a>(mut words: Pieces<'a>) -> Option<&'a [u8]>
    ensures { MatchOption result (one_of words.entry ≡ None) (λ word. one_of words.entry ≡ Some word.now) }
{
    let word = words.take_next()?;
    none_of(words)?;
    Some(word)
}

/// Returns the two words that are left, if there are exactly two.
fn two_of<'a>(mut words: Pieces<'a>) -> Option<(&'a [u8], &'a [u8])>
    ensures { MatchOption result (two_of words.entry ≡ None) (λ given. two_of words.entry ≡ Some (given.0.now, given.1.now)) }
{
    let first = words.take_next()?;
    let second = one_of(words)?;
    Some((first, second))
}

/// Returns the three words that are left, if there are exactly three.
fn three_of<'a>(mut words: Pieces<'a>) -> Option<(&'a [u8], &'a [u8], &'a [u8])>
    ensures { MatchOption result (three_of words.entry ≡ None)
        (λ given. three_of words.entry ≡ Some (given.0.now, given.1.now, given.2.now)) }
{
    let first = words.take_next()?;
    let (second, third) = two_of(words)?;
    Some((first, second, third))
}

/// Returns the five words that are left, if there are exactly five.
fn five_of<'a>(mut words: Pieces<'a>) -> Option<(&'a [u8], &'a [u8], &'a [u8], &'a [u8], &'a [u8])>
    ensures { MatchOption result (five_of words.entry ≡ None)
        (λ given. five_of words.entry ≡ Some (given.0.now, given.1.now, given.2.now, given.3.now, given.4.now)) }
{
    let first = words.take_next()?;
    let second = words.take_next()?;
    let third = words.take_next()?;
    let fourth = words.take_next()?;
    let fifth = one_of(words)?;
    Some((first, second, third, fourth, fifth))
}

/// Reads a user and a group from two words.
pub(crate) fn cred_in(uid: &[u8], gid: &[u8]) -> Option<Cred>
    ensures { result ≡ cred_in uid.now gid.now }
{
    Some(Cred {
        uid: short_in(uid)?,
        gid: short_in(gid)?,
    })
}

/// Reads a device from the words of its kind and of its major and minor numbers.
fn device_in(kind: &[u8], major: &[u8], minor: &[u8]) -> Option<DeviceId>
    ensures { result ≡ device_in kind.now major.now minor.now }
{
    Some(DeviceId {
        kind: device_kind_in(kind)?,
        major: byte_in(major)?,
        minor: byte_in(minor)?,
    })
}

/// Reads the words `PATH`.
pub(crate) fn path_alone(alloc: Global, words: Pieces<'_>) -> Result<Bytes, LineFault>
    ensures { Reads (one_of words.entry) result }
{
    let path = one_of(words).ok_or(LineFault::Unreadable)?;
    Ok(Bytes::from_slice(alloc, path)?)
}

/// Reads the words `FROM TO`.
pub(crate) fn two_paths(alloc: Global, words: Pieces<'_>) -> Result<(Bytes, Bytes), LineFault>
    ensures { Reads (two_of words.entry) result }
{
    let (source, target) = two_of(words).ok_or(LineFault::Unreadable)?;
    Ok((
        Bytes::from_slice(alloc, source)?,
        Bytes::from_slice(alloc, target)?,
    ))
}

/// Reads the words `PATH PERM`.
pub(crate) fn path_and_permissions(
    alloc: Global,
    words: Pieces<'_>,
) -> Result<(Bytes, u16), LineFault>
    ensures { Reads (path_and_permissions words.entry) result }
{
    let (path, permissions) = two_of(words).ok_or(LineFault::Unreadable)?;
    let permissions = permissions_in(permissions).ok_or(LineFault::Unreadable)?;
    Ok((Bytes::from_slice(alloc, path)?, permissions))
}

/// Reads the words `PATH LENGTH`.
pub(crate) fn path_and_length(alloc: Global, words: Pieces<'_>) -> Result<(Bytes, u32), LineFault>
    ensures { Reads (path_and_length words.entry) result }
{
    let (path, length) = two_of(words).ok_or(LineFault::Unreadable)?;
    let length = long_in(length).ok_or(LineFault::Unreadable)?;
    Ok((Bytes::from_slice(alloc, path)?, length))
}

/// Reads the words `PATH UID GID`.
pub(crate) fn path_and_owner(alloc: Global, words: Pieces<'_>) -> Result<(Bytes, Cred), LineFault>
    ensures { Reads (path_and_owner words.entry) result }
{
    let (path, uid, gid) = three_of(words).ok_or(LineFault::Unreadable)?;
    let owner = cred_in(uid, gid).ok_or(LineFault::Unreadable)?;
    Ok((Bytes::from_slice(alloc, path)?, owner))
}

/// Reads the words `PATH OFFSET HEX`.
pub(crate) fn path_and_bytes(
    alloc: Global,
    words: Pieces<'_>,
) -> Result<(Bytes, u32, Bytes), LineFault>
    ensures { Reads (path_and_bytes words.entry) result }
{
    let (path, offset, bytes) = three_of(words).ok_or(LineFault::Unreadable)?;
    let offset = long_in(offset).ok_or(LineFault::Unreadable)?;
    let bytes = bytes_in(alloc, bytes)?;
    Ok((Bytes::from_slice(alloc, path)?, offset, bytes))
}

/// Reads the words `PATH OFFSET LEN`, or `PATH ATIME MTIME`.
pub(crate) fn path_and_numbers(
    alloc: Global,
    words: Pieces<'_>,
) -> Result<(Bytes, u32, u32), LineFault>
    ensures { Reads (path_and_numbers words.entry) result }
{
    let (path, first, second) = three_of(words).ok_or(LineFault::Unreadable)?;
    let first = long_in(first).ok_or(LineFault::Unreadable)?;
    let second = long_in(second).ok_or(LineFault::Unreadable)?;
    Ok((Bytes::from_slice(alloc, path)?, first, second))
}

/// Reads the words `PATH PERM KIND MAJOR MINOR`.
pub(crate) fn path_and_device(
    alloc: Global,
    words: Pieces<'_>,
) -> Result<(Bytes, u16, DeviceId), LineFault>
    ensures { Reads (path_and_device words.entry) result }
{
    let (path, permissions, kind, major, minor) = five_of(words).ok_or(LineFault::Unreadable)?;
    let permissions = permissions_in(permissions).ok_or(LineFault::Unreadable)?;
    let device = device_in(kind, major, minor).ok_or(LineFault::Unreadable)?;
    Ok((Bytes::from_slice(alloc, path)?, permissions, device))
}
