//! `serve` without `--read-only`: mounts a volume, serves it with changes, and saves it in its file.
ghost use Rattle.std.specs.Prelude.{◌≡◌, ℕ, IfErr, IfOk, Some, map};
ghost use Rattle.command_faults.specs.Streams.{heard, says};
ghost use Rattle.host_files.specs.OpenedFiles.{IsOpened};
ghost use Rattle.unixvol.specs.FileFaults.{file_status};
ghost use Rattle.unixvol.specs.Runs.{IsStored, IsUnread, host_files};
ghost use Rattle.unixvol.specs.Serve.{EndsMounted, MountsImage, RunsMounted, messages};

use crate::explain::{tell_fault, tell_file};
use crate::file_fault::{FileFault, NamedFile};
use crate::host::Surroundings;
use crate::moment;
use crate::read::{expect_volume, read_image};
use crate::rescue::{expect_free, rescue};
use crate::save::part_of;
use crate::subject::Subject;
use command_faults::mount::mount;
use command_faults::status::{BAD_FILE, NO_MEMORY};
use command_line::VolumeFile;
use host_files::{HeldFile, ImageFiles, save_held};
use pdp_words::{Image, Sink};
use std::env::Env;
use std::fs;
use std::marker::PhantomData;
use std::os::unix::fs::MetadataExt;
use std::rt::Clock;
use std::snapshot::Snapshot;
use vol_mounted::{MountedFault, MountedServer, Owner, serve};
use vol_serve::{Replies, Requests, ServeFault};
use vol_volume::Volume;

/// A folder that belongs to the user and the group of the program.
const OWN_FOLDER: &str = "/proc/self";

/// An image that was saved. It has no bytes: only contracts refer to it.
#[derive(Drop)]
struct SavedImage<R: ImageFiles> {
    marker: PhantomData<R>,
    image: Snapshot<Image>,
    ghost stored: { ∥ ((place : ℕ) × IsStored place image.value R.File.remaining R.File.contents R.had) ∥₁ },
}

/// The file in which the served volume is saved.
#[derive(Drop)]
struct ImageSaver<'a, R: ImageFiles> {
    /// The system.
    host: &'a Surroundings<'a, R>,
    /// The volume, by its file and its place in it.
    volume: VolumeFile<'a>,
    /// The file, which is locked.
    held: HeldFile<R::File>,
    /// True if the last save that failed ran out of memory.
    ran_out: bool,
    /// The images saved so far, in order.
    saved: Vec<SavedImage<R>>,
}

/// Mounts the volume in a file, which stays locked, and serves it with changes until the requests end. The volume is saved in its file when the
/// kernel asks for it, and at the end. If that fails at the end, its image is written to another file: to `rescued`, if a path is given. The inner result is the server's; the outer error is the exit status if nothing was served, or if the volume
/// couldn't be saved at the end. Its line has been printed.
pub fn run<R: ImageFiles + Env + Clock + Eprint + AllocGlobal, Q: Requests, P: Replies, E: Sink>(
    host: &Surroundings<'_, R>,
    requests: &mut Q,
    replies: &mut P,
    errors: &mut E,
    volume: VolumeFile<'_>,
    is_mine: bool,
    rescued: Option<&str>,
) -> Result<Result<(), ServeFault>, u8>
    ensures { RunsMounted (host_files volume.entry.at R.File.remaining R.File.contents R.had R.stood) volume.entry.edition
        (says (heard E.contents E.failed errors.old errors.new)) (messages Q.taken P.sent requests.old requests.new replies.old replies.new) result }
{
    let (owner, image, held) = match prepare(host, volume, is_mine, rescued) {
        Ok(prepared) => prepared,
        Err(fault) => return Err(tell_file(host, &fault)),
    };
    let mounted = mount_or_tell(host, errors, volume, image)?;
    let Ok(mut server) = MountedServer::new(host.rt.alloc(), mounted, owner) else {
        return Ok(Err(ServeFault::NoMemory));
    };
    let mut saver = ImageSaver {
        host,
        volume,
        held,
        ran_out: false,
        saved: Vec::new(host.rt.alloc()),
    };
    let served = serve(host.rt.alloc(), &mut server, requests, replies, &mut saver);
    if let Err(MountedFault::Unsaved) = served {
        let _ = rescue(host, volume.image, rescued, server.volume().image());
    }
    result_of(served, saver.ran_out)
}

/// Checks that the image can be opened and that there is no file yet for a rescue; then locks the image and reads it. Returns the user and the group to
/// show, as [`owner`] does, the image, and its file.
fn prepare<'a, R: ImageFiles + Clock + Eprint + AllocGlobal>(
    host: &Surroundings<'_, R>,
    volume: VolumeFile<'a>,
    is_mine: bool,
    rescued: Option<&'a str>,
) -> Result<(Option<Owner>, Vec<u8>, HeldFile<R::File>), FileFault<'a>>
    ensures image { IfOk result (λ prepared. IsOpened volume.entry.at volume.entry.edition R.File.remaining R.had prepared.1.items prepared.2.stamp) }
    ensures fault { IfErr result (λ fault. IsUnread R.File.remaining (file_status fault)) }
{
    expect_volume(host.rt, volume)?;
    expect_free(host.rt, rescued)?;
    let owner = owner(host.rt, is_mine)?;
    let (image, stamp, file) = read_image(host, volume)?;
    Ok((owner, image, HeldFile { file, stamp }))
}

/// Returns the user and the group of the program, if all nodes are shown as belonging to them.
fn owner<'a, R: ImageFiles>(rt: &R, is_mine: bool) -> Result<Option<Owner>, FileFault<'a>>
    ensures { IfErr result (λ fault. file_status fault ≡ 3) }
{
    if !is_mine {
        return Ok(None);
    }
    match fs::metadata(rt, OWN_FOLDER) {
        Ok(metadata) => Ok(Some(Owner {
            uid: metadata.uid(),
            gid: metadata.gid(),
        })),
        Err(why) => Err(FileFault::Unread(NamedFile::File(OWN_FOLDER), why)),
    }
}

/// Mounts the volume in an image. If that fails, prints the fault and returns the status.
fn mount_or_tell<R: ImageFiles + Eprint + AllocGlobal, E: Sink>(
    host: &Surroundings<'_, R>,
    errors: &mut E,
    volume: VolumeFile<'_>,
    image: Vec<u8>,
) -> Result<Volume, u8>
    ensures { MountsImage volume.entry.edition image.items (says (heard E.contents E.failed errors.old errors.new)) result }
{
    match mount(host.rt.alloc(), volume.edition, image) {
        Ok(mounted) => Ok(mounted),
        Err(fault) => {
            let status = fault.status();
            let subject = Some(Subject::of_serve(volume));
            tell_fault(host, errors, &Some(fault), None, subject);
            Err(status)
        }
    }
}

/// Returns the result of a run, from the result of its server. `ran_out` is true if the image couldn't be saved because memory ran out.
fn result_of(served: Result<(), MountedFault>, ran_out: bool) -> Result<Result<(), ServeFault>, u8>
    ensures { EndsMounted served result }
{
    match served {
        Ok(()) => Ok(Ok(())),
        Err(MountedFault::Serve(fault)) => Ok(Err(fault)),
        Err(MountedFault::Unsaved) if ran_out => Err(NO_MEMORY),
        Err(MountedFault::Unsaved) => Err(BAD_FILE),
    }
}

impl<R: ImageFiles + Clock + Eprint + AllocGlobal> vol_mounted::Host for ImageSaver<'_, R> {
    ghost saved = { λ saver. Some (map (λ saved. saved.image.value) saver.saved.items) };

    fn seconds(&self) -> u32 {
        // If the clock can't be read, the time is the beginning of 1970.
        moment(self.host.rt).unwrap_or(0)
    }

    fn save(&mut self, image: &Image) -> bool {
        let path = self.volume.image;
        let part = part_of(self.volume, image.as_bytes());
        if let Err(why) = save_held(self.host.rt, path, &mut self.held, part) {
            let status = tell_file(self.host, &FileFault::unsaved(path, why));
            self.ran_out = status == NO_MEMORY;
            return false;
        }
        let saved = SavedImage {
            marker: PhantomData,
            image: Snapshot::of(image),
        };
        self.saved.push(saved).is_ok()
    }
}
