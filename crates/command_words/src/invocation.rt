//! Invocations: a command with its arguments read.
ghost use Rattle.std.specs.Prelude.{◌≡◌};
ghost use Rattle.command_words.specs.Invocations.{volume_of, with_volume};

use bad_maps::ReadRange;
use command_terms::{
    BadLook, Change, Comparison, Keep, Look, Migration, NodeName, OutputForm, PlayForm, Repairing,
};
use vol_check::Checker;
use vol_dir::Cred;
use vol_layout::Edition;
use vol_losses::VolumeSizes;
use vol_mkfs::NewVolume;

/// A volume in a file.
#[derive(Clone, Copy)]
pub struct VolumeFile<'a> {
    /// The edition of Unix; if `is_any`, the seventh, until the volume is judged.
    pub edition: Edition,
    /// True if the edition is still to be found: the one of which the volume is sound.
    pub is_any: bool,
    /// The path of its file.
    pub image: &'a str,
    /// The number of the block of the file that it begins at.
    pub at: u32,
}

/// A file to make.
#[derive(Clone, Copy)]
pub struct MadeFile<'a> {
    /// Its path.
    pub path: &'a str,
    /// True if the file must not exist; otherwise an existing file is replaced.
    pub is_new: bool,
}

/// The place of a new volume.
#[derive(Clone, Copy)]
pub enum NewPlace<'a> {
    /// A file to make, which holds the volume alone.
    File(MadeFile<'a>),
    /// The blocks from `at` on of the file `image`, which exists.
    Part { image: &'a str, at: u32 },
}

/// What says which blocks of an image couldn't be read.
#[derive(Drop)]
pub enum GivenBad<'a> {
    /// The map in the file at this path: each block of which it doesn't have all bytes.
    Map(&'a str),
    /// Ranges of bytes of the volume: each block of which no range has all bytes.
    Outside(Vec<ReadRange>),
}

/// What is known of an image of which some blocks couldn't be read.
#[derive(Drop)]
pub struct BadImage<'a> {
    /// The blocks that couldn't be read.
    pub bad: GivenBad<'a>,
    /// The sizes of the volume, if they take the place of those in its super-block.
    pub sizes: Option<VolumeSizes>,
}

/// The format of guesses.
#[derive(Clone, Copy, PartialEq, Eq)]
pub enum GuessForm {
    /// Lines.
    Lines,
    /// JSON.
    Json,
    /// A catalogue of volumes, as comma-separated values.
    Catalogue,
}

/// Work on a volume with several threads.
#[derive(Drop)]
pub enum Work<'a> {
    /// Print a checker's findings, with 1 to 64 threads.
    Check {
        checker: Checker,
        workers: usize,
        form: OutputForm,
    },
    /// Play the scripts in these files, 1 to 64, each in a thread of its own, and print the results in this form; if `journal`, print the journal too.
    Play {
        scripts: Vec<&'a str>,
        journal: bool,
        form: PlayForm,
    },
}

/// A time, and the word it was read from.
#[derive(Clone, Copy)]
pub struct Moment<'a> {
    /// The time, in seconds since the beginning of 1970.
    pub seconds: u32,
    /// Its word, which may have been meant as a file's name; `None` if the time is the clock's.
    pub word: Option<&'a str>,
}

/// Copying between a volume and files outside it.
#[derive(Drop)]
pub enum Copying<'a> {
    /// Put files into a directory of the volume, each under its last name, keep this of each, and give each this owner, if any; `now` is the time of the
    /// calls; if `trace`, print what each call changed.
    Put {
        directory: &'a str,
        files: Vec<&'a str>,
        keep: Keep,
        owner: Option<Cred>,
        now: Moment<'a>,
        trace: bool,
    },
    /// Put folders with all below them into a directory of the volume, each under its last name, and else as files are put.
    PutTree {
        directory: &'a str,
        folders: Vec<&'a str>,
        keep: Keep,
        owner: Option<Cred>,
        now: Moment<'a>,
        trace: bool,
    },
    /// Make a directory of the volume what a folder is, and give what is made or put this owner, if any; `now` is the time of the calls; if `deletes`, also
    /// remove what the folder hasn't; if `is_trial`, only print what would be done.
    Sync {
        directory: &'a str,
        folder: &'a str,
        owner: Option<Cred>,
        now: u32,
        deletes: bool,
        is_trial: bool,
    },
    /// Write a list of the volume, from which `build` makes it again, into the file `new`, and the files that it names beside it.
    List {
        new: MadeFile<'a>,
    },
    /// Write files of the volume into a folder, each under its last name; if `is_deep`, also directories with everything below them; if `keeps`, with
    /// their permissions and times of modification.
    Get {
        folder: &'a str,
        paths: Vec<&'a str>,
        is_deep: bool,
        keeps: bool,
    },
}

/// A way of serving a volume.
#[derive(Clone, Copy)]
pub enum Serving<'a> {
    /// Read-only.
    ReadOnly,
    /// With changes; if `is_mine`, all nodes are shown as belonging to the caller. If the image can't be saved at the end, it is written to the file
    /// `rescue`, if one is named.
    Changes {
        is_mine: bool,
        rescue: Option<&'a str>,
    },
}

/// A command with its arguments.
#[derive(Drop)]
pub enum Invocation<'a> {
    /// Print the body of an i-node of the volume in a file.
    Cat {
        volume: VolumeFile<'a>,
        node: NodeName<'a>,
    },
    /// Print a file of the volume in a file.
    Get {
        volume: VolumeFile<'a>,
        path: &'a str,
    },
    /// Make a volume in this place.
    Mkfs {
        place: NewPlace<'a>,
        volume: NewVolume,
    },
    /// Make a volume of all that the list in the file `list` has.
    Build {
        list: &'a str,
        new: MadeFile<'a>,
    },
    /// Make a volume of the seventh edition in the file `new` from the one of the sixth in the file `old`, which begins at block `at`.
    Migrate {
        old: &'a str,
        at: u32,
        new: MadeFile<'a>,
        migration: Migration,
    },
    /// Salvage the volume in a file, in memory; save it in the file `copy`, if one is named; and print how its free list changed.
    Salvage {
        volume: VolumeFile<'a>,
        copy: Option<&'a str>,
    },
    /// Repair the image of a volume in a file, to a copy in memory; save it in the file `copy`, if one is named; and print all that differs.
    Repair {
        volume: VolumeFile<'a>,
        copy: Option<MadeFile<'a>>,
        repairing: Repairing,
    },
    /// The same with an image of which some blocks couldn't be read; also print what is lost.
    RepairBad {
        volume: VolumeFile<'a>,
        image: BadImage<'a>,
        copy: Option<MadeFile<'a>>,
        repairing: Repairing,
    },
    /// Give the volume in a file another number of blocks; if `is_trial`, in memory only.
    Resize {
        volume: VolumeFile<'a>,
        blocks: u32,
        is_trial: bool,
    },
    /// Change the volume in a file; if `trace`, print what each of its calls changed.
    Change {
        volume: VolumeFile<'a>,
        change: Change<'a>,
        trace: bool,
    },
    /// Show part of the image in a file, sound or not.
    Look {
        volume: VolumeFile<'a>,
        look: Look<'a>,
    },
    /// Show part of the image in a file, of which some blocks couldn't be read.
    LookBad {
        volume: VolumeFile<'a>,
        image: BadImage<'a>,
        look: BadLook<'a>,
    },
    /// Copy several files into the volume in a file, or out of it.
    Copy {
        volume: VolumeFile<'a>,
        copying: Copying<'a>,
    },
    /// Work on the volume in a file with several threads.
    Work {
        volume: VolumeFile<'a>,
        work: Work<'a>,
    },
    /// Serve the volume in a file to Linux's FUSE.
    Serve {
        volume: VolumeFile<'a>,
        serving: Serving<'a>,
    },
    /// Show how the volumes in two files differ; the one in `other` begins at the same block of its file.
    Diff {
        volume: VolumeFile<'a>,
        other: &'a str,
        by: Comparison,
    },
    /// Guess what the images in these files are, in this format; if `is_deep`, also in all regular files below those that are folders.
    Identify {
        images: Vec<&'a str>,
        form: GuessForm,
        is_deep: bool,
    },
}

impl<'a> Invocation<'a> {
    /// Returns the volume in a file that the command works on, if its words name the volume's edition.
    pub fn volume(&self) -> Option<VolumeFile<'a>>
        ensures { result ≡ volume_of self.now }
    {
        match self {
            Invocation::Mkfs { .. }
            | Invocation::Build { .. }
            | Invocation::Migrate { .. }
            | Invocation::Identify { .. } => None,
            Invocation::Cat { volume, .. }
            | Invocation::Get { volume, .. }
            | Invocation::Salvage { volume, .. }
            | Invocation::Repair { volume, .. }
            | Invocation::RepairBad { volume, .. }
            | Invocation::Resize { volume, .. }
            | Invocation::Change { volume, .. }
            | Invocation::Look { volume, .. }
            | Invocation::LookBad { volume, .. }
            | Invocation::Copy { volume, .. }
            | Invocation::Work { volume, .. }
            | Invocation::Serve { volume, .. }
            | Invocation::Diff { volume, .. } => Some(*volume),
        }
    }

    /// Returns the same command on this volume, if it works on a volume whose edition its words name; else the command itself.
    pub fn with_volume(self, volume: VolumeFile<'a>) -> Invocation<'a>
        ensures { result ≡ with_volume self.entry volume.entry }
    {
        match self {
            Invocation::Cat { node, .. } => Invocation::Cat { volume, node },
            Invocation::Get { path, .. } => Invocation::Get { volume, path },
            Invocation::Salvage { copy, .. } => Invocation::Salvage { volume, copy },
            Invocation::Repair {
                copy,
                repairing,
                ..
            } => Invocation::Repair {
                volume,
                copy,
                repairing,
            },
            Invocation::RepairBad {
                image,
                copy,
                repairing,
                ..
            } => Invocation::RepairBad {
                volume,
                image,
                copy,
                repairing,
            },
            Invocation::Resize {
                blocks,
                is_trial,
                ..
            } => Invocation::Resize {
                volume,
                blocks,
                is_trial,
            },
            Invocation::Change { change, trace, .. } => Invocation::Change {
                volume,
                change,
                trace,
            },
            Invocation::Look { look, .. } => Invocation::Look { volume, look },
            Invocation::LookBad { image, look, .. } => Invocation::LookBad {
                volume,
                image,
                look,
            },
            Invocation::Copy { copying, .. } => Invocation::Copy { volume, copying },
            Invocation::Work { work, .. } => Invocation::Work { volume, work },
            Invocation::Serve { serving, .. } => Invocation::Serve { volume, serving },
            Invocation::Diff { other, by, .. } => Invocation::Diff { volume, other, by },
            Invocation::Mkfs { .. }
            | Invocation::Build { .. }
            | Invocation::Migrate { .. }
            | Invocation::Identify { .. } => self,
        }
    }
}
