//! Making the calls of an import on a volume, all or nothing.
ghost use Rattle.std.specs.Prelude.{◌≡◌, ◌⊎◌, ◌+◌, IfOk, IfErr, OnOk, Ok, length, nat_le};
ghost use Rattle.vol_judge.specs.Sound.{IsSound};
ghost use Rattle.vol_volume.specs.Volume.{mounted, reads_as};
ghost use Rattle.vol_import.specs.MadeMembers.{HasArchive};
ghost use Rattle.vol_batch.specs.Batch.{AreMade};
ghost use Rattle.vol_import.specs.Make.{IsUnmounted, TakesMemory, unread, unplanned, told, calls_to_make, IsStop, Tells, Imports, IsReason};
ghost use Rattle.vol_import.specs.Members.{members};
ghost use Rattle.vol_import.specs.Options.{calls_with, chosen, chosen_members, left_out};
ghost use Rattle.vol_import.specs.Plan.{Tells as PlanTells, plan};

use crate::archive_members::{Member, members};
use crate::entries::block_at;
use crate::faults::ArchiveFault;
use crate::import_options::{Chosen, ImportOptions, choose};
use crate::import_plan::{PlanFault, plan};
use crate::member_check::MemberFault;
use std::alloc::Global;
use ustar::{HeaderFault, path_of};
use vol_batch::make_all;
use vol_dir::Refusal;
use vol_layout::Edition;
use vol_volume::{Bytes, Call, MountFault, Volume};

/// The reason why an archive isn't imported.
#[derive(Drop)]
pub enum ImportFault {
    /// The image isn't sound; this is the first of the twelve rules that it breaks.
    Unsound(u8),
    /// The archive can't be read.
    Archive(ArchiveFault),
    /// No calls can make the member at this path of the archive; for [`MemberFault::NoInode`], at this path of the volume.
    Member(Bytes, MemberFault),
    /// A call is refused, with its path in the volume.
    Refused(Refusal, Call),
    /// Memory ran out.
    NoMemory,
}

impl From<MountFault> for ImportFault {
    ghost use Rattle.vol_import.specs.Make.{unmounted};

    ghost from_gives = { λ why fault. fault ≡ unmounted why };

    fn from(fault: MountFault) -> ImportFault {
        match fault {
            MountFault::Unsound(rule) => ImportFault::Unsound(rule),
            MountFault::NoMemory => ImportFault::NoMemory,
        }
    }
}

/// A volume after an import.
#[derive(Drop)]
pub struct Imported {
    /// The bytes of the volume.
    pub bytes: Vec<u8>,
    /// The paths of the members that were left out, in the order of the archive.
    pub left_out: Vec<Bytes>,
}

/// Makes all members of an archive below the path `base` of the volume stored in `image`, each with its own owner, as [`import_with`] does without
/// options, and returns the new bytes.
pub fn import(
    alloc: Global,
    edition: Edition,
    image: Vec<u8>,
    archive: Vec<u8>,
    base: &[u8],
    now: u32,
) -> Result<Vec<u8>, ImportFault>
    ensures made { IfOk result (λ bytes. Imports edition image.items (calls_to_make (reads_as edition image.items).tree archive.items base.now now) bytes.items) }
    ensures members { IfOk result (λ bytes. HasArchive (reads_as edition image.items).tree (reads_as edition bytes.items).tree base.now now (members archive.items)) }
    ensures fault { IfErr result (IsReason edition image.items (calls_to_make (reads_as edition image.items).tree archive.items base.now now)) }
{
    let options = ImportOptions {
        skip_special: false,
        owner: None,
    };
    match import_with(alloc, edition, image, archive, options, base, now) {
        Ok(imported) => Ok(imported.bytes),
        Err(fault) => Err(fault),
    }
}

/// Makes the members of an archive that the options choose below the path `base` of the volume stored in `image`, and returns the new bytes, and the
/// paths of the other members. Makes all calls of [`plan`], in order and as user 0. If one step fails, nothing is returned but the first reason: of
/// the image, then of the archive, then of the members, then of the calls.
///
/// Takes memory to mount the image, twice for the paths of the members, once for their bytes, and for the calls. Drops the archive after reading its
/// members.
pub fn import_with(
    alloc: Global,
    edition: Edition,
    image: Vec<u8>,
    archive: Vec<u8>,
    options: ImportOptions,
    base: &[u8],
    now: u32,
) -> Result<Imported, ImportFault>
    ensures made { IfOk result (λ imported. Imports edition image.items (calls_with options (reads_as edition image.items).tree archive.items base.now now) imported.bytes.items) }
    ensures members { IfOk result (λ imported. HasArchive (reads_as edition image.items).tree (reads_as edition imported.bytes.items).tree base.now now (chosen_members options (members archive.items))) }
    ensures left_out { IfOk result (λ imported. imported.left_out.items ≡ left_out options (members archive.items)) }
    ensures fault { IfErr result (IsReason edition image.items (calls_with options (reads_as edition image.items).tree archive.items base.now now)) }
{
    let mut volume = mount(alloc, edition, image)?;
    let planned = calls_with(alloc, &volume, archive, options, base, now)?;
    let Planned { calls, left_out } = planned;
    make(alloc, &mut volume, calls)?;
    Ok(Imported {
        bytes: volume.unmount(),
        left_out,
    })
}

/// Mounts the volume stored in these bytes. Fails if it isn't sound or memory runs out.
///
/// Takes as much memory and time as [`Volume::mount`].
#[tactic(auto, using(crate::proofs::ImportFaults::is_unmounted))]
pub fn mount(alloc: Global, edition: Edition, image: Vec<u8>) -> Result<Volume, ImportFault>
    ensures mounted { IfOk result (λ volume. volume ≡ mounted edition image.items) }
    ensures sound { OnOk result (IsSound edition image.items) }
    ensures fault { IfErr result (IsUnmounted edition image.items) }
{
    Volume::mount(alloc, edition, image).map_err(|(fault, _)| ImportFault::from(fault))
}

/// Returns the fault of an archive that can't be read. If a field of a member's header isn't a number, the fault has the path in the header.
fn unread(alloc: Global, archive: &[u8], fault: ArchiveFault) -> ImportFault
    ensures { ((result ≡ ImportFault.NoMemory) × TakesMemory fault) ⊎ (result ≡ unread archive.now fault) }
{
    match fault {
        ArchiveFault::NoMemory => ImportFault::NoMemory,
        ArchiveFault::Header(at, HeaderFault::Number) if has_block(archive, at) => {
            match path_of(alloc, block_at(archive, at)) {
                Ok(path) => ImportFault::Member(Bytes::from_vec(path), MemberFault::Number),
                Err(_) => ImportFault::NoMemory,
            }
        }
        ArchiveFault::Truncated(_)
        | ArchiveFault::LoneZeroBlock(_)
        | ArchiveFault::Header(_, _)
        | ArchiveFault::Records(_)
        | ArchiveFault::Unsupported(_)
        | ArchiveFault::Sparse(_) => ImportFault::Archive(fault),
    }
}

/// True if an archive has a whole block at a position.
fn has_block(archive: &[u8], at: usize) -> bool
    ensures { result ≡ nat_le (at + 512) (length archive.now) }
{
    archive.len() >= 512 && archive.len() - 512 >= at
}

/// Returns the fault of an import whose members no calls can make.
pub fn unplanned(fault: PlanFault) -> ImportFault
    ensures { result ≡ unplanned fault }
{
    match fault {
        PlanFault::Member(path, cause) => ImportFault::Member(path, cause),
        PlanFault::NoMemory => ImportFault::NoMemory,
    }
}

/// The calls of an import.
#[derive(Drop)]
pub struct Planned {
    /// The calls, in their order.
    pub calls: Vec<Call>,
    /// The paths of the members that are left out, in the order of the archive.
    pub left_out: Vec<Bytes>,
}

/// Returns the calls that make the members of an archive that the options choose below the path `base` of a volume, those of [`plan`], and the paths of
/// the other members. The fault is the first reason why there are no calls: of the archive, then of the members.
///
/// Takes memory twice for the paths of the members, once for their bytes, and for the calls. Drops the archive after reading its members.
pub fn calls_with(
    alloc: Global,
    volume: &Volume,
    archive: Vec<u8>,
    options: ImportOptions,
    base: &[u8],
    now: u32,
) -> Result<Planned, ImportFault>
    ensures ok { IfOk result (λ planned. calls_with options (reads_as volume.now.edition volume.now.image).tree archive.items base.now now ≡ Ok planned.calls.items) }
    ensures left_out { IfOk result (λ planned. planned.left_out.items ≡ left_out options (members archive.items)) }
    ensures fault { IfErr result (Tells (calls_with options (reads_as volume.now.edition volume.now.image).tree archive.items base.now now)) }
{
    match members(alloc, &archive) {
        Ok(found) => {
            drop(archive);
            calls_for(alloc, volume, options, base, now, found)
        }
        Err(fault) => Err(unread(alloc, &archive, fault)),
    }
}

/// Returns the calls that make the members that the options choose below a path of a volume.
fn calls_for(
    alloc: Global,
    volume: &Volume,
    options: ImportOptions,
    base: &[u8],
    now: u32,
    found: Vec<Member>,
) -> Result<Planned, ImportFault>
    ensures ok { IfOk result (λ planned. told (plan (reads_as volume.now.edition volume.now.image).tree base.now now (chosen options found.items).0) ≡ Ok planned.calls.items) }
    ensures left_out { IfOk result (λ planned. planned.left_out.items ≡ (chosen options found.items).1) }
    ensures fault { IfErr result (Tells (told (plan (reads_as volume.now.edition volume.now.image).tree base.now now (chosen options found.items).0))) }
{
    match plan_chosen(alloc, volume, options, base, now, found) {
        Ok(planned) => Ok(planned),
        Err(fault) => Err(unplanned(fault)),
    }
}

/// Returns the calls of [`plan`] for the members that the options choose.
fn plan_chosen(
    alloc: Global,
    volume: &Volume,
    options: ImportOptions,
    base: &[u8],
    now: u32,
    found: Vec<Member>,
) -> Result<Planned, PlanFault>
    ensures ok { IfOk result (λ planned. plan (reads_as volume.now.edition volume.now.image).tree base.now now (chosen options found.items).0 ≡ Ok planned.calls.items) }
    ensures left_out { IfOk result (λ planned. planned.left_out.items ≡ (chosen options found.items).1) }
    ensures fault { IfErr result (PlanTells (plan (reads_as volume.now.edition volume.now.image).tree base.now now (chosen options found.items).0)) }
{
    let Chosen { members, left_out } = choose(alloc, options, found)?;
    let calls = plan(alloc, volume, base, now, members)?;
    Ok(Planned { calls, left_out })
}

/// Makes calls on a volume, up to the first that is refused, which becomes the fault of the import.
pub fn make(alloc: Global, volume: &mut Volume, calls: Vec<Call>) -> Result<(), ImportFault>
    ensures made { OnOk result (AreMade volume.old calls.items volume.new) }
    ensures fault { IfErr result (IsStop volume.old calls.items volume.new) }
{
    match make_all(alloc, volume, calls) {
        Ok(()) => Ok(()),
        Err((refusal, call)) => Err(stopped(refusal, call)),
    }
}

/// Returns the fault of a refused call.
fn stopped(refusal: Refusal, call: Call) -> ImportFault
    ensures { (result ≡ ImportFault.NoMemory) ⊎ (result ≡ ImportFault.Refused refusal call) }
{
    match refusal {
        Refusal::NoMemory => ImportFault::NoMemory,
        _ => ImportFault::Refused(refusal, call),
    }
}
