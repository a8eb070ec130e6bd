//! The subjects of commands.

use command_line::{Copying, Invocation, NewPlace, VolumeFile, Work};
use command_terms::{BadLook, Change, DumpTarget, Look, NodeName};
use command_words::Verb;
use vol_check::Checker;
use vol_layout::Edition;

/// The subject of a command: the file or path named in the second line of a fault.
#[derive(Clone, Copy)]
pub struct Subject<'a> {
    /// The command.
    pub verb: Verb,
    /// The file that holds the image to read, or else the image to make.
    pub image: &'a str,
    /// The block of this file that the volume begins at.
    pub at: u32,
    /// The edition that the user named for this image.
    pub edition: Edition,
    /// The part of the image that it works on.
    pub about: About<'a>,
    /// The message for the bytes on standard input, if they are a compressed file.
    pub packed: Option<&'static str>,
}

/// The part of an image that a command works on.
#[derive(Clone, Copy)]
pub enum About<'a> {
    /// The image as a whole.
    Image,
    /// The file or directory at a path; the root if the path is empty. A path outside the volume is never empty.
    Path(&'a str),
    /// A file by its path, and a new name by its path.
    Names { from: &'a str, to: &'a str },
    /// An i-node by its number.
    Inode(u16),
    /// Files that hold scripts.
    Scripts(&'a [&'a str]),
}

impl<'a> Subject<'a> {
    /// Returns the subject of the command line that was read, as [`Subject::of_plain`] does.
    pub fn of_read<E>(read: &Result<Invocation<'a>, E>) -> Option<Subject<'a>> {
        match read {
            Ok(invocation) => Subject::of_plain(invocation),
            Err(_) => None,
        }
    }

    /// Returns the subject of a command that runs in one thread and prints all of its output or nothing. Returns `None` for other commands, and for
    /// `cat`, which prints its own faults.
    fn of_plain(invocation: &Invocation<'a>) -> Option<Subject<'a>> {
        match invocation {
            Invocation::Get { volume, path } => {
                Some(Subject::new(*volume, Verb::Get, About::Path(path)))
            }
            Invocation::Salvage { volume, .. } => {
                Some(Subject::new(*volume, Verb::Salvage, About::Image))
            }
            Invocation::Repair { volume, .. } => { Some(Subject::of_repair(*volume)) }
            Invocation::Resize { volume, .. } => {
                Some(Subject::new(*volume, Verb::Resize, About::Image))
            }
            Invocation::Mkfs { place, volume } => Some(Subject::of_new(*place, volume.edition)),
            Invocation::Build { new, .. } => Some(Subject::of_built(new.path)),
            Invocation::Migrate { old, at, new, .. } => Some(Subject {
                verb: Verb::Migrate,
                image: old,
                at: *at,
                edition: Edition::V6,
                about: About::Path(new.path),
                packed: None,
            }),
            _ => None,
        }
    }

    /// Returns the subject of `mkfs`.
    fn of_new(place: NewPlace<'a>, edition: Edition) -> Subject<'a> {
        let (image, at) = match place {
            NewPlace::File(file) => (file.path, 0),
            NewPlace::Part { image, at } => (image, at),
        };
        Subject {
            verb: Verb::Mkfs,
            image,
            at,
            edition,
            about: About::Image,
            packed: None,
        }
    }

    /// Returns the subject of `build`. Only its list says which edition the volume has, and no line names that.
    fn of_built(image: &'a str) -> Subject<'a> {
        Subject {
            verb: Verb::Build,
            image,
            at: 0,
            edition: Edition::V7,
            about: About::Image,
            packed: None,
        }
    }

    /// Returns the subject of a command on the volume in a file.
    fn new(volume: VolumeFile<'a>, verb: Verb, about: About<'a>) -> Subject<'a> {
        Subject {
            verb,
            image: volume.image,
            at: volume.at,
            edition: volume.edition,
            about,
            packed: None,
        }
    }

    /// Returns the subject with the message for compressed bytes.
    pub fn with_packed(self, packed: Option<&'static str>) -> Subject<'a> {
        Subject { packed, ..self }
    }

    /// Returns the subject of `cat`.
    pub fn of_cat(volume: VolumeFile<'a>, node: NodeName<'a>) -> Subject<'a> {
        Subject::new(volume, Verb::Cat, about_node(node))
    }

    /// Returns the subject of a command that shows part of the image in a file.
    pub fn of_look(volume: VolumeFile<'a>, look: Look<'a>) -> Subject<'a> {
        let (verb, about) = match look {
            Look::Export { path, .. } => (Verb::Export, About::Path(path)),
            Look::Sums { path, .. } => (Verb::Sums, About::Path(path)),
            Look::Inode { node, .. } => (Verb::Inode, about_node(node)),
            Look::Super { .. } => (Verb::Super, About::Image),
            Look::Free { .. } => (Verb::Free, About::Image),
            Look::Block { .. } => (Verb::Block, About::Image),
            Look::Dump { target, .. } => (Verb::Dump, about_target(target)),
            Look::Df { .. } => (Verb::Df, About::Image),
            Look::Find { path, .. } => (Verb::Find, About::Path(path)),
            Look::Map {
                file: Some(path),
                ..
            } => (Verb::Map, About::Path(path)),
            Look::Map { .. } | Look::Uses => (Verb::Map, About::Image),
            Look::Check { .. } => (Verb::Check, About::Image),
            Look::List { path, .. } | Look::Slots { path, .. } | Look::ListUnsound { path, .. } => (
                Verb::Ls,
                About::Path(path),
            ),
            Look::ReadUnsound { path } => (Verb::Get, About::Path(path)),
        };
        Subject::new(volume, verb, about)
    }

    /// Returns the subject of a command that shows part of the image in a file, of which some blocks couldn't be read.
    pub fn of_bad_look(volume: VolumeFile<'a>, look: BadLook<'a>) -> Subject<'a> {
        let (verb, about) = match look {
            BadLook::Export { path, .. } => (Verb::Export, About::Path(path)),
            BadLook::Find { path, .. } => (Verb::Find, About::Path(path)),
            BadLook::Sums { path, .. } => (Verb::Sums, About::Path(path)),
            BadLook::Check { .. } => (Verb::Check, About::Image),
            BadLook::Block { .. } => (Verb::Block, About::Image),
            BadLook::Map { .. } | BadLook::Uses => (Verb::Map, About::Image),
            BadLook::List { path, .. } => (Verb::Ls, About::Path(path)),
            BadLook::Read { path, .. } => (Verb::Get, About::Path(path)),
            BadLook::Body { node, .. } => (Verb::Cat, about_node(node)),
        };
        Subject::new(volume, verb, about)
    }

    /// Returns the subject of `repair`.
    pub fn of_repair(volume: VolumeFile<'a>) -> Subject<'a> {
        Subject::new(volume, Verb::Repair, About::Image)
    }

    /// Returns the subject of `diff`, about one of its images.
    pub fn of_diff(volume: VolumeFile<'a>) -> Subject<'a> {
        Subject::new(volume, Verb::Diff, About::Image)
    }

    /// Returns the subject of `serve`.
    pub fn of_serve(volume: VolumeFile<'a>) -> Subject<'a> {
        Subject::new(volume, Verb::Serve, About::Image)
    }

    /// Returns the subject of a change of the volume in a file.
    pub fn of_change(volume: VolumeFile<'a>, change: Change<'a>) -> Subject<'a> {
        let (verb, about) = match change {
            Change::Put { path, .. } => (Verb::Put, About::Path(path)),
            Change::Import { path, .. } => (Verb::Import, About::Path(path)),
            Change::Rm { path, .. } => (Verb::Rm, About::Path(path)),
            Change::RmAll { path, .. } => (Verb::Rm, About::Path(path)),
            Change::Rmdir { path, .. } => (Verb::Rmdir, About::Path(path)),
            Change::Mkdir { path, .. } => (Verb::Mkdir, About::Path(path)),
            Change::MkdirAll { path, .. } => (Verb::Mkdir, About::Path(path)),
            Change::Ln { from, to, .. } => (Verb::Ln, About::Names { from, to }),
            Change::Mv { from, to, .. } => (Verb::Mv, About::Names { from, to }),
            Change::Chmod { path, .. } => (Verb::Chmod, About::Path(path)),
            Change::Chown { path, .. } => (Verb::Chown, About::Path(path)),
            Change::Touch { path, .. } => (Verb::Touch, About::Path(path)),
            Change::Mknod { path, .. } => (Verb::Mknod, About::Path(path)),
            Change::Salvage => (Verb::Salvage, About::Image),
            Change::Boot { file } => (Verb::Boot, About::Path(file)),
        };
        Subject::new(volume, verb, about)
    }

    /// Returns the subject of copying several files. A line about one of the files names that file instead.
    pub fn of_copying(volume: VolumeFile<'a>, copying: &Copying<'a>) -> Subject<'a> {
        let (verb, about) = match copying {
            Copying::Put { directory, .. } | Copying::PutTree { directory, .. } => {
                (Verb::Put, About::Path(directory))
            }
            Copying::Sync { directory, .. } => (Verb::Sync, About::Path(directory)),
            Copying::Get { .. } => (Verb::Get, About::Image),
            Copying::List { .. } => (Verb::Build, About::Image),
        };
        Subject::new(volume, verb, about)
    }

    /// Returns the subject of work with several threads.
    pub fn of_work(volume: VolumeFile<'a>, work: &'a Work<'a>) -> Subject<'a> {
        let (verb, about) = match work {
            Work::Check { checker, .. } => (verb_of(*checker), About::Image),
            Work::Play { scripts, .. } => (Verb::Play, About::Scripts(scripts)),
        };
        Subject::new(volume, verb, about)
    }
}

/// Returns an i-node by its name, as the part of the image that a command works on.
fn about_node(node: NodeName<'_>) -> About<'_> {
    match node {
        NodeName::Number(number) => About::Inode(number),
        NodeName::Path(path) => About::Path(path),
    }
}

/// Returns what is dumped, as the part of the image that a command works on.
fn about_target(target: DumpTarget<'_>) -> About<'_> {
    match target {
        DumpTarget::Block(_) | DumpTarget::Inode(_) => About::Image,
        DumpTarget::Path(path) => About::Path(path),
    }
}

/// Returns the command of a checker.
fn verb_of(checker: Checker) -> Verb {
    match checker {
        Checker::Blocks => Verb::Icheck,
        Checker::Entries => Verb::Dcheck,
        Checker::Names => Verb::Ncheck,
    }
}
