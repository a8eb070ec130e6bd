//! What the system does with the file of an image, and what it reported.
ghost use Rattle.std.specs.Prelude.{◌≡◌, ℕ, List, Bool, replicate, IfErr, IfOk, OnOk};
ghost use Rattle.std.specs.Io.KnownBytes.{Appends};
ghost use Rattle.std.specs.declared.io.Error.{Error};
ghost use Rattle.host_files.specs.declared.folders.FolderListing.{FolderListing};
ghost use Rattle.host_files.specs.declared.image_file.Stamp.{Stamp};
ghost use Rattle.host_files.specs.Packs.{HasBytes, IsMovedTo};

use crate::folders::FolderListing;
use crate::image_file::Stamp;
use crate::progress::Stage;
use std::fs::Files;
use std::io;

/// The system's functions for the file of an image.
pub trait ImageFiles: Files {
    /// The system reported this stamp for an open file.
    ghost had: { Self.File → Stamp → Type 0 };

    /// The system reported this stamp for the file at a path.
    ghost stood: { Stamp → Type 0 };

    /// The system reported whether something exists at a path.
    ghost stands: { List ℕ → Bool → Type 0 };

    /// The system reported this of what is in the folder at a path.
    ghost listed: { List ℕ → FolderListing → Type 0 };

    /// The system refused, with this error, to move over this number of bytes of an open file.
    ghost refused: { Self.File → ℕ → Error → Type 0 };

    /// Returns the present stamp of an open file; a terminal is a stream.
    fn stamp_of(&self, file: &Self::File) -> io::Result<Stamp>
        ensures { IfOk result (had file.now) };

    /// Returns the present stamp of an open file; of a device, with the number of its bytes up to its end as its size. The file stays where it was.
    fn sized_stamp_of(&self, file: &mut Self::File) -> io::Result<Stamp>
        ensures stamp { IfOk result (had file.new) }
        ensures kept { OnOk result (Self.File.remaining file.new ≡ Self.File.remaining file.old) };

    /// Returns the present stamp of the file at `path`. Symbolic links are followed; a terminal counts as a device.
    fn stamp_at(&self, path: &str) -> io::Result<Stamp>
        ensures { IfOk result stood };

    /// Returns the stamp of the name `path` itself: symbolic links aren't followed, and count as streams.
    fn stamp_of_name(&self, path: &str) -> io::Result<Stamp>
        ensures { IfOk result stood };

    /// Returns what is in the folder at `path`, each file or folder with its path, in any order; symbolic links in it aren't followed. Fails if
    /// the folder can't be read, or memory runs out. If something in it can't be examined, the rest is returned with the reason.
    fn folder_at(&self, path: &str) -> io::Result<FolderListing>
        ensures { IfOk result (listed path.now) };

    /// True if something exists at `path`, even a symbolic link that leads nowhere. A path that can't be examined counts as existing.
    fn is_there(&self, path: &str) -> bool
        ensures { stands path.now result };

    /// Changes the user, the group or both of an open file. True if the system allowed it.
    fn give(&self, file: &Self::File, user: Option<u32>, group: Option<u32>) -> bool;

    /// Locks an open file for this program alone, until all its handles are closed. False if another program has it locked; true also if the file's
    /// system has no locks.
    fn try_lock(&self, file: &Self::File) -> bool;

    /// Moves over the next `count` bytes of an open file, without reading or writing them. A regular file must have them, by its size. If anything else
    /// has fewer, the system refuses.
    fn pass_over(&self, file: &mut Self::File, count: u64) -> io::Result<()>
        requires { HasBytes had file.old count }
        ensures moved { OnOk result (IsMovedTo count (Self.File.remaining file.old) (Self.File.remaining file.new)) }
        ensures fault { IfErr result (refused file.old count) };

    /// Appends `count` zeros to an open file that ends where it is written, as a hole if its system has holes.
    fn append_hole(&self, file: &mut Self::File, count: u64) -> io::Result<()>
        ensures { OnOk result (Appends (Self.File.contents file.old) (Self.File.contents file.new) (replicate count 0)) };

    /// Notes what is done with files from now on, for a line that shows how much of it is done. A system that shows none does nothing.
    fn begin(&self, _stage: Stage) {}
}
