//! Opening, closing, and the bytes of a volume.
ghost use Rattle.std.specs.Prelude.{◌≡◌, ◌≢◌, ◌↔◌, ◌⊎◌, ◌+◌, pos, ℕ, true, false, None, Some, IsSomeAnd, IfSome, IsNone, IfErr, OnOk, OnErr, [], length};
ghost use Rattle.vol_layout.specs.Ids.{is_bad_id};
ghost use Rattle.vol_judge.specs.Sound.{IsLeastBroken, IsSound};
ghost use Rattle.vol_mkfs.specs.Mkfs.{is_size, volume_of, IsNewVolume};
ghost use Rattle.vol_volume.specs.Volume.{mounted};
ghost use Rattle.unixvol_c.specs.Calls.{edition_of, IsNoEdition};
ghost use Rattle.unixvol_c.specs.Opened.{opened};

use crate::handle::Handle;
use crate::open_volume::OpenVolume;
use crate::{BAD_ID, BOUNDS, CLOSED, DONE, NO_EDITION, NO_MEMORY, NO_ROOM, UNSOUND};
use pdp_words::Image;
use std::alloc::{AllocError, Global};
use vol_layout::Edition;
use vol_volume::{MkfsFault, MountFault, Volume, judge, mkfs};

/// Opens a handle on a copy of these bytes, and frees the volume that it held before.
///
/// Takes memory for the copy, for a second one as the journal's start, and to judge the bytes.
#[unsafe(no_mangle)]
pub extern "C" fn unixvol_open(alloc: Global, handle: &mut Handle, edition: u8, bytes: &[u8]) -> i32
    ensures opened { result ≡ DONE → handle.new.sealed.held ≡ Some (opened (mounted (edition_of edition) bytes.now)) }
    ensures sound { result ≡ DONE → IsSound (edition_of edition) bytes.now }
    ensures edition { result ≡ NO_EDITION ↔ IsNoEdition edition }
    ensures unsound { result ≢ DONE → result ≢ NO_EDITION → result ≢ NO_MEMORY
        → (rule : ℕ) × (result ≡ pos (200 + rule)) × IsLeastBroken true (edition_of edition) bytes.now rule }
    ensures unchanged { result ≢ DONE → handle.new ≡ handle.old }
{
    let Some(edition) = edition_of(edition) else {
        return NO_EDITION;
    };
    let Ok(bytes) = Vec::from_slice(alloc, bytes) else {
        return NO_MEMORY;
    };
    match Volume::mount(alloc, edition, bytes) {
        Ok(volume) => match hold(alloc, handle, volume) {
            Ok(()) => DONE,
            Err(_) => NO_MEMORY,
        },
        Err((MountFault::Unsound(rule), _)) => unsound(rule),
        Err((MountFault::NoMemory, _)) => NO_MEMORY,
    }
}

/// Makes a new volume of `blocks` blocks, `list_blocks` of them for the i-list, and opens a handle on it; the volume that the handle held before is
/// freed. The root belongs to `uid` and `gid`, and all times are `now`.
///
/// Takes memory for two copies of its bytes, and to judge them.
#[unsafe(no_mangle)]
pub extern "C" fn unixvol_mkfs(
    alloc: Global,
    handle: &mut Handle,
    edition: u8,
    blocks: u32,
    list_blocks: u16,
    uid: u16,
    gid: u16,
    now: u32,
) -> i32
    ensures made { result ≡ DONE → IsSomeAnd handle.new.sealed.held (λ held. (held ≡ opened (mounted (edition_of edition) held.volume.image))
        × IsNewVolume (volume_of (edition_of edition) blocks list_blocks) uid gid now held.volume.image) }
    ensures edition { result ≡ NO_EDITION ↔ IsNoEdition edition }
    ensures bounds { (IsNoEdition edition → ⊥) → (result ≡ BOUNDS ↔ (is_size (edition_of edition) blocks list_blocks ≡ false)) }
    ensures bad_id { (IsNoEdition edition → ⊥) → is_size (edition_of edition) blocks list_blocks ≡ true
        → (result ≡ BAD_ID ↔ (is_bad_id (edition_of edition) uid gid ≡ true)) }
    ensures others { (result ≡ DONE) ⊎ (result ≡ NO_EDITION) ⊎ (result ≡ BOUNDS) ⊎ (result ≡ BAD_ID) ⊎ (result ≡ NO_MEMORY) }
    ensures unchanged { result ≢ DONE → handle.new ≡ handle.old }
{
    let Some(edition) = edition_of(edition) else {
        return NO_EDITION;
    };
    match mkfs(alloc, edition, blocks, list_blocks, uid, gid, now) {
        Ok(bytes) => match Volume::mount(alloc, edition, bytes) {
            Ok(volume) => match hold(alloc, handle, volume) {
                Ok(()) => DONE,
                Err(_) => NO_MEMORY,
            },
            Err((MountFault::Unsound(_), _)) => unreachable!(),
            Err((MountFault::NoMemory, _)) => NO_MEMORY,
        },
        Err(MkfsFault::Bounds) => BOUNDS,
        Err(MkfsFault::BadId) => BAD_ID,
        Err(MkfsFault::NoMemory) => NO_MEMORY,
    }
}

/// Closes a handle, which may be closed already, and frees its volume.
#[unsafe(no_mangle)]
pub extern "C" fn unixvol_close(alloc: Global, handle: &mut Handle)
    ensures { handle.new.sealed.held ≡ None }
{
    drop(handle.take(alloc));
}

/// Judges bytes, which may be any: returns 0 if they are a sound volume, else 200 plus the number of the first of the
/// twelve rules that they break.
///
/// Takes memory for a copy, and to judge it.
#[unsafe(no_mangle)]
pub extern "C" fn unixvol_judge(alloc: Global, edition: u8, bytes: &[u8]) -> i32
    ensures sound { result ≡ DONE → IsSound (edition_of edition) bytes.now }
    ensures edition { result ≡ NO_EDITION ↔ IsNoEdition edition }
    ensures unsound { result ≢ DONE → result ≢ NO_EDITION → result ≢ NO_MEMORY
        → (rule : ℕ) × (result ≡ pos (200 + rule)) × IsLeastBroken true (edition_of edition) bytes.now rule }
{
    let Some(edition) = edition_of(edition) else {
        return NO_EDITION;
    };
    let Ok(bytes) = Vec::from_slice(alloc, bytes) else {
        return NO_MEMORY;
    };
    match judge(alloc, edition, &Image::from_bytes(bytes), true) {
        Ok(None) => DONE,
        Ok(Some(rule)) => unsound(rule),
        Err(_) => NO_MEMORY,
    }
}

/// Sets `count` to the number of bytes of the image. Takes no memory.
#[unsafe(no_mangle)]
pub extern "C" fn unixvol_size(alloc: Global, handle: &mut Handle, count: &mut usize) -> i32
    ensures closed { handle.old.sealed.held ≡ None → (result ≡ CLOSED) × (count.new ≡ count.old) }
    ensures held { IfSome handle.old.sealed.held (λ held. (result ≡ DONE) × (count.new ≡ length held.volume.image)) }
    ensures same { handle.new.sealed.held ≡ handle.old.sealed.held }
{
    let Some(held) = handle.take(alloc) else {
        return CLOSED;
    };
    *count = held.volume().image().len();
    handle.put(held);
    DONE
}

/// Copies the image into a buffer of exactly its size. Takes no memory.
#[unsafe(no_mangle)]
pub extern "C" fn unixvol_image(alloc: Global, handle: &mut Handle, into: &mut [u8]) -> i32
    ensures closed { result ≡ CLOSED ↔ handle.old.sealed.held ≡ None }
    ensures room { result ≡ NO_ROOM ↔ IsSomeAnd handle.old.sealed.held (λ held. length into.old ≢ length held.volume.image) }
    ensures others { (result ≡ DONE) ⊎ (result ≡ CLOSED) ⊎ (result ≡ NO_ROOM) }
    ensures copied { result ≡ DONE → IsSomeAnd handle.old.sealed.held (λ held. into.new ≡ held.volume.image) }
    ensures unchanged { result ≢ DONE → into.new ≡ into.old }
    ensures same { handle.new.sealed.held ≡ handle.old.sealed.held }
{
    let Some(held) = handle.take(alloc) else {
        return CLOSED;
    };
    let answer = copy_image(held.volume(), into);
    handle.put(held);
    answer
}

/// Copies the image of a volume into a buffer of exactly its size.
fn copy_image(volume: &Volume, into: &mut [u8]) -> i32
    ensures copied { length into.old ≡ length volume.now.image → (result ≡ DONE) × (into.new ≡ volume.now.image) }
    ensures room { length into.old ≢ length volume.now.image → (result ≡ NO_ROOM) × (into.new ≡ into.old) }
{
    let bytes = volume.image().as_bytes();
    if bytes.len() != into.len() {
        return NO_ROOM;
    }
    into.copy_from_slice(bytes);
    DONE
}

/// Puts a volume that was just mounted into the handle, and frees the one that it held before.
fn hold(alloc: Global, handle: &mut Handle, volume: Volume) -> Result<(), AllocError>
    requires { volume.journal ≡ [] }
    ensures held { OnOk result (handle.new.sealed.held ≡ Some (opened volume)) }
    ensures unchanged { OnErr result (handle.new ≡ handle.old) }
{
    let held = Box::new(alloc, OpenVolume::new(alloc, volume))?;
    handle.put(held);
    Ok(())
}

/// Returns the number of a broken rule.
pub(crate) fn unsound(rule: u8) -> i32
    ensures { result ≡ pos (200 + rule) }
{
    UNSOUND + rule as i32
}

/// Returns the edition with a number.
pub(crate) fn edition_of(number: u8) -> Option<Edition>
    ensures some { IfSome result (λ edition. (edition ≡ edition_of number) × (IsNoEdition number → ⊥)) }
    ensures none { IsNone result → IsNoEdition number }
{
    match number {
        6 => Some(Edition::V6),
        7 => Some(Edition::V7),
        _ => None,
    }
}
