//! An image of a volume that replays records, and remembers the image before each.
ghost use Rattle.std.specs.Prelude.{◌≡◌, IfOk, OnOk};
ghost use Rattle.vol_layout.specs.Geometry.{Fits, geometry_of};
ghost use Rattle.vol_dir.specs.Tree.{free_count, shapes, state};
ghost use Rattle.vol_judge.specs.Sound.{IsSound};
ghost use Rattle.vol_fields.specs.Differences.{IsDiffText};
ghost use Rattle.vol_volume.specs.Journal.{MayFollow};
ghost use Rattle.vol_volume.specs.Volume.{Performs};
ghost use Rattle.vol_trace.specs.Replay.{IsReady, IsReplay};
ghost use Rattle.vol_trace.specs.Trace.{IsChanges, roles_of};

use pdp_words::Image;
use std::alloc::{AllocError, Global};
use vol_fields::{MappedImage, Role, block_roles, diff_text};
use vol_layout::Geometry;
use vol_volume::{MountFault, Record, Volume, apply};

/// An image that replays the records of a journal.
#[derive(Drop)]
pub(crate) struct Replay {
    /// The geometry of the image.
    pub(crate) geometry: Geometry,
    /// The number of its free blocks.
    pub(crate) free: u32,
    /// The image after the records so far.
    pub(crate) image: Image,
    /// The image that the next record is compared with.
    pub(crate) before: Image,
    /// The role of each block of that image.
    pub(crate) roles: Vec<Role>,
}

/// Returns an image of a volume as it was before the first record of its journal.
pub(crate) fn begin(alloc: Global, volume: &Volume) -> Result<Replay, AllocError>
    ensures replay { IfOk result IsReplay }
    ensures sizes { IfOk result (λ replay. replay.geometry ≡ geometry_of volume.now.edition volume.now.base) }
    ensures image { IfOk result (λ replay. replay.image ≡ volume.now.base) }
{
    let mounted = mount_base(alloc, volume)?;
    let geometry = *mounted.geometry();
    let free = mounted.free_blocks();
    let image = Image::from_bytes(mounted.unmount());
    let before = copy_of(alloc, &image)?;
    let roles = block_roles(alloc, &image, &geometry)?;
    Ok(Replay {
        geometry,
        free,
        image,
        before,
        roles,
    })
}

/// Mounts a copy of the bytes that a volume's journal starts from.
fn mount_base(alloc: Global, volume: &Volume) -> Result<Volume, AllocError>
    ensures sound { IfOk result (λ made. IsSound volume.now.edition volume.now.base) }
    ensures edition { IfOk result (λ made. made.edition ≡ volume.now.edition) }
    ensures image { IfOk result (λ made. made.image ≡ volume.now.base) }
{
    volume.check();
    let base = Vec::from_slice(alloc, volume.base())?;
    match Volume::mount(alloc, volume.edition(), base) {
        Ok(made) => Ok(made),
        Err((MountFault::NoMemory, _)) => Err(AllocError),
        Err((MountFault::Unsound(_), _)) => unreachable!(),
    }
}

/// Returns a copy of an image.
fn copy_of(alloc: Global, image: &Image) -> Result<Image, AllocError>
    ensures { IfOk result (λ copy. copy ≡ image.now) }
{
    Ok(Image::from_bytes(Vec::from_slice(alloc, image.as_bytes())?))
}

/// Applies a record, which may come next, to the image of a replay.
pub(crate) fn apply_next(replay: &mut Replay, next: &Record)
    requires ready { IsReady replay.old }
    requires follows { MayFollow (state replay.old.geometry replay.old.image) next.now }
    ensures ready { IsReady replay.new }
    ensures performed { Performs replay.old.geometry replay.old.image replay.new.image next.now.call next.now.done }
    ensures geometry { replay.new.geometry ≡ replay.old.geometry }
    ensures before { replay.new.before ≡ replay.old.before }
    ensures roles { replay.new.roles ≡ replay.old.roles }
{
    if !apply(&mut replay.image, &replay.geometry, &mut replay.free, next) {
        unreachable!()
    }
}

/// Returns the lines of what differs between the image that a replay remembers and its present one, whose blocks have these roles.
pub(crate) fn changes_text(
    alloc: Global,
    replay: &Replay,
    roles: &[Role],
) -> Result<Vec<u8>, AllocError>
    requires before { Fits replay.now.geometry replay.now.before }
    requires image { Fits replay.now.geometry replay.now.image }
    requires old_roles { replay.now.roles.items ≡ roles_of replay.now.geometry replay.now.before }
    requires new_roles { roles.now ≡ roles_of replay.now.geometry replay.now.image }
    ensures { IfOk result (λ text. IsChanges replay.now.geometry replay.now.before replay.now.image text.items) }
{
    let before = MappedImage {
        image: &replay.before,
        geometry: &replay.geometry,
        roles: &replay.roles,
    };
    let after = MappedImage {
        image: &replay.image,
        geometry: &replay.geometry,
        roles,
    };
    diff_text(alloc, &before, &after, false)
}

/// Remembers the present image of a replay, whose blocks have these roles.
pub(crate) fn remember(
    alloc: Global,
    replay: &mut Replay,
    roles: Vec<Role>,
) -> Result<(), AllocError>
    requires ready { IsReady replay.old }
    requires roles { roles.items ≡ roles_of replay.old.geometry replay.old.image }
    ensures replay { OnOk result (IsReplay replay.new) }
    ensures geometry { OnOk result (replay.new.geometry ≡ replay.old.geometry) }
    ensures image { OnOk result (replay.new.image ≡ replay.old.image) }
{
    replay.before = copy_of(alloc, &replay.image)?;
    replay.roles = roles;
    Ok(())
}
