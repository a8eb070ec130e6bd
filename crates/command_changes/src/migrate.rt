//! `migrate` turns the volume in an image of the sixth edition into one of the seventh, and returns the bytes to save.
ghost use Rattle.std.specs.Prelude.{◌≡◌, IfOk, IfErr};
ghost use Rattle.command_faults.specs.Outcomes.{Concludes};
ghost use Rattle.command_faults.specs.Streams.{Hears, heard, streams};
ghost use Rattle.command_changes.specs.Migrate.{IsObstacle, Migrates, of_migration, unmigrated};

use command_faults::answer::{conclude, tell, unremarked};
use command_faults::{Answer, Fault};
use command_terms::Migration;
use pdp_words::{Image, Sink};
use std::alloc::Global;
use vol_dir::Refusal;
use vol_judge::judge;
use vol_layout::Edition;
use vol_migrate::MigrateFault;

/// Migrates a volume as [`migrate_image`] does, and writes the line of a fault to `errors`. Writes nothing to `_output`.
pub fn migrate_command<O: Sink, E: Sink>(
    alloc: Global,
    image: Vec<u8>,
    migration: Migration,
    _output: &mut O,
    errors: &mut E,
) -> Answer
    ensures outcome { Concludes (of_migration image.items migration)
        (streams O.contents O.failed _output.old _output.new result.fault) result }
    ensures told { Hears (heard E.contents E.failed errors.old errors.new) result.fault }
{
    let answer = conclude(unremarked(alloc, migrate_image(alloc, image, migration)));
    tell(&answer.fault, errors);
    answer
}

/// Makes a volume of the seventh edition with the files of one of the sixth, for `migrate`. The fault is the first rule that the image breaks, or
/// the refusal of [`vol_migrate::migrate_image`] for a sound one; or out of memory.
///
/// Takes the memory of [`judge`] and [`vol_migrate::migrate_image`]. The image isn't copied.
pub fn migrate_image(alloc: Global, image: Vec<u8>, migration: Migration) -> Result<Vec<u8>, Fault>
    ensures migrated { IfOk result (λ bytes. Migrates image.items migration bytes.items) }
    ensures fault { IfErr result (IsObstacle image.items migration) }
{
    let Migration {
        blocks,
        list_blocks,
        now,
        devices,
    } = migration;
    let image = Image::from_bytes(image);
    match judge(alloc, Edition::V6, &image, true)? {
        None => vol_migrate::migrate_image(
            alloc,
            &image,
            blocks,
            list_blocks,
            now,
            devices,
        ).map_err(unmigrated),
        Some(rule) => Err(Fault::Unsound(rule)),
    }
}

/// Returns the fault of a `migrate` that can't make a volume for this reason.
fn unmigrated(fault: MigrateFault) -> Fault
    ensures { result ≡ unmigrated fault }
{
    match fault {
        MigrateFault::Invalid => Fault::Refused(Refusal::Invalid),
        MigrateFault::Bounds => Fault::Bounds,
        MigrateFault::HasDevice => Fault::HasDevice,
        MigrateFault::NoInode => Fault::Refused(Refusal::NoInode),
        MigrateFault::NoSpace => Fault::Refused(Refusal::NoSpace),
        MigrateFault::NoMemory => Fault::Refused(Refusal::NoMemory),
    }
}
