//! `resize`: opening and saving its file.
ghost use Rattle.std.specs.Prelude.{Bool, IfErr, IfSome, IsSome, List, OnOk, Option, ℕ};
ghost use Rattle.command_faults.specs.Streams.{still};
ghost use Rattle.unixvol.specs.FileFaults.{file_status, run_fault, run_status};
ghost use Rattle.unixvol.specs.Runs.{Ends, IsStatusOfFileOrMemory, RunsResize, SavesResized, host_files};

use crate::file_fault::{FailedRun, FileFault, after_saving};
use crate::host::Surroundings;
use crate::place::{expect_place, has_only};
use crate::read::read_image;
use crate::save::part_of;
use command_changes::resize::resize_image;
use command_faults::answer::{conclude, unremarked};
use command_faults::{Answer, Ending};
use command_line::VolumeFile;
use host_files::{ImageFiles, Stamp, save_volume, save_whole};
use pack_files::{Growth, blocks_in};
use std::rt::Clock;

/// Gives the volume in a file another number of blocks, saves it unless this is a trial, and returns the result of the run.
pub fn run_resize<'a, R: ImageFiles + Clock + Eprint + AllocGlobal>(
    host: &Surroundings<'_, R>,
    volume: VolumeFile<'a>,
    blocks: u32,
    is_trial: bool,
) -> Result<Ending, FailedRun<'a>>
    ensures runs { (known : Option (List ℕ)) (failed : Bool)
        → RunsResize (still known failed (run_fault result)) (host_files volume.entry.at R.File.remaining R.File.contents R.had R.stood) volume.entry blocks is_trial (run_status result) }
    ensures ends { (known : Option (List ℕ)) (failed : Bool) → Ends (still known failed (run_fault result)) (run_status result) }
{
    // The image's file stays open, and so locked, until the result is saved.
    let (image, stamp, _locked) = read_image(host, volume)?;
    let growth = Growth {
        at: volume.at,
        had: blocks_in(image.len() as u64),
        gets: blocks,
    };
    let alloc = host.rt.alloc();
    let resized = resize_image(alloc, volume.edition, image, blocks);
    let answer = conclude(unremarked(alloc, resized));
    let saved = save_resized(host.rt, volume, stamp, growth, is_trial, &answer);
    after_saving(saved, answer.status, answer.fault)
}

/// Saves a resized volume in its file, if there is one, the file has a place for it and this is no trial.
fn save_resized<'a, R: ImageFiles + AllocGlobal>(
    rt: &R,
    volume: VolumeFile<'a>,
    read: Stamp,
    growth: Growth,
    is_trial: bool,
    answer: &Answer,
) -> Result<(), FileFault<'a>>
    ensures saved { OnOk result (IfSome answer.now.image (λ bytes. SavesResized (host_files volume.entry.at R.File.remaining R.File.contents R.had R.stood) read growth is_trial bytes.items)) }
    ensures fault { IfErr result (λ fault. IsSome answer.now.image × IsStatusOfFileOrMemory (file_status fault)) }
{
    let Some(bytes) = &answer.image else {
        return Ok(());
    };
    expect_place(rt, volume.image, read, growth)?;
    if is_trial {
        return Ok(());
    }
    let saved = if has_only(read, growth) {
        save_whole(rt, volume.image, read, bytes)
    } else {
        save_volume(rt, volume.image, read, part_of(volume, bytes))
    };
    match saved {
        Ok(()) => Ok(()),
        Err(why) => Err(FileFault::unsaved(volume.image, why)),
    }
}
