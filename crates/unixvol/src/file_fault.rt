//! Faults of host files, and the runs that they end.
ghost use Rattle.std.specs.Prelude.{◌≡◌};
ghost use Rattle.unixvol.specs.FileFaults.{failed_by, file_status, run_fault, run_status, saved_status};
ghost use Rattle.unixvol.specs.Runs.{IsStatusOfFileOrMemory};

use command_faults::status::{BAD_COMMAND_LINE, BAD_FILE, NO_MEMORY, REFUSED};
use command_faults::{Ending, Fault};
use command_line::VolumeFile;
use host_files::TreeFault;
use identify_lines::ShownPath;
use pack_files::Verdicts;
use std::alloc::Global;
use std::path::PathBuf;
use std::{fmt, io};
use vol_identify::Part;

/// The name of standard input and standard output in a fault's line.
pub const STREAM: &str = "-";

/// A file, or one of the standard streams.
#[derive(Clone, Copy)]
pub enum NamedFile<'a> {
    /// The file at a path.
    File(&'a str),
    /// Standard input.
    Input,
    /// Standard output.
    Output,
}

impl<'a> NamedFile<'a> {
    /// Returns the name in a fault's line.
    fn name(self) -> &'a str {
        match self {
            NamedFile::File(path) => path,
            NamedFile::Input | NamedFile::Output => STREAM,
        }
    }

    /// Returns the name in the second line, which explains the fault.
    pub fn in_words(self) -> &'a str {
        match self {
            NamedFile::File(path) => path,
            NamedFile::Input => "standard input",
            NamedFile::Output => "standard output",
        }
    }
}

/// The reason why a host file can't be used.
#[derive(Drop)]
pub enum FileFault<'a> {
    /// It can't be read.
    Unread(NamedFile<'a>, io::Error),
    /// It can't be read at this path, which no word of the command line is.
    UnreadBelow(String, io::Error),
    /// It can't be read: it ends before this block.
    Short(&'a str, u32),
    /// It can't be written.
    Unwritten(NamedFile<'a>, io::Error),
    /// It can't be written at this path, which no word of the command line is.
    Uncopied(PathBuf, io::Error),
    /// It can't be written: it has only this number of blocks.
    Small(&'a str, u64),
    /// It can't be written: this part of it would be overwritten.
    Taken(&'a str, Part),
    /// It holds a volume that is sound as one of neither edition, or of both.
    Ambiguous(VolumeFile<'a>, Verdicts),
    /// Its path is the word that was read as the time.
    Moment(&'a str),
    /// Memory ran out.
    NoMemory,
    /// Memory ran out for this file.
    NoMemoryFor(&'a str),
}

impl<'a> FileFault<'a> {
    /// Returns the fault of a file that isn't saved for this reason.
    pub fn unsaved(path: &'a str, why: io::Error) -> FileFault<'a>
        ensures { IsStatusOfFileOrMemory (file_status result) }
    {
        if why.kind() == io::ErrorKind::OutOfMemory {
            FileFault::NoMemory
        } else {
            FileFault::Unwritten(NamedFile::File(path), why)
        }
    }

    /// Returns the fault of a file below a folder that can't be read for this reason.
    pub fn below(alloc: Global, path: &str, why: io::Error) -> FileFault<'a>
        ensures { IsStatusOfFileOrMemory (file_status result) }
    {
        if why.kind() == io::ErrorKind::OutOfMemory {
            return FileFault::NoMemory;
        }
        match String::from_str(alloc, path) {
            Ok(path) => FileFault::UnreadBelow(path, why),
            Err(_) => FileFault::NoMemory,
        }
    }

    /// Returns the fault of a file at a path that can't be read, with the path in memory of its own.
    pub fn owned<'b>(self, alloc: Global, path: &str) -> FileFault<'b>
        ensures { IsStatusOfFileOrMemory (file_status result) }
    {
        match self {
            FileFault::NoMemory | FileFault::NoMemoryFor(_) => FileFault::NoMemory,
            FileFault::Unread(_, why) => FileFault::below(alloc, path, why),
            _ => FileFault::below(alloc, path, io::Error::from(io::ErrorKind::Other)),
        }
    }

    /// Returns the exit status.
    pub fn status(&self) -> u8
        ensures { result ≡ file_status self.now }
    {
        match self {
            FileFault::Ambiguous(..) => REFUSED,
            FileFault::Moment(_) => BAD_COMMAND_LINE,
            FileFault::NoMemory | FileFault::NoMemoryFor(_) => NO_MEMORY,
            FileFault::Unread(..)
            | FileFault::UnreadBelow(..)
            | FileFault::Short(..)
            | FileFault::Unwritten(..)
            | FileFault::Uncopied(..)
            | FileFault::Small(..)
            | FileFault::Taken(..) => BAD_FILE,
        }
    }
}

impl From<TreeFault> for FileFault<'_> {
    ghost from_gives = { λ _ fault. IsStatusOfFileOrMemory (file_status fault) };

    fn from(fault: TreeFault) -> Self {
        match fault {
            TreeFault::Unread(path, why) => FileFault::UnreadBelow(path, why),
            TreeFault::NoMemory => FileFault::NoMemory,
        }
    }
}

/// Writes the line of a fault, without the name of the program.
impl fmt::Display for FileFault<'_> {
    fn fmt<W: fmt::Write>(&self, f: &mut fmt::Formatter<W>) -> fmt::Result {
        match self {
            FileFault::Unread(file, _) => write!(f, "cannot read {}", ShownPath(file.name())),
            FileFault::UnreadBelow(path, _) => write!(
                f,
                "cannot read {}",
                ShownPath(path.as_str())
            ),
            FileFault::Short(path, _) => write!(f, "cannot read {}", ShownPath(path)),
            FileFault::Unwritten(file, _) => write!(f, "cannot write {}", ShownPath(file.name())),
            FileFault::Uncopied(place, _) => write!(
                f,
                "cannot write {}",
                ShownPath(place.as_str())
            ),
            FileFault::Small(path, _) | FileFault::Taken(path, _) => {
                write!(f, "cannot write {}", ShownPath(path))
            }
            FileFault::Ambiguous(_, verdicts) => match verdicts.sixth {
                Some(_) => write!(f, "sound as neither edition"),
                None => write!(f, "sound as both editions"),
            },
            FileFault::Moment(word) => write!(
                f,
                "{word}: a moment, and a file too: write ./{word}, or the moment in another form"
            ),
            FileFault::NoMemory => write!(f, "12 NoMemory"),
            FileFault::NoMemoryFor(path) => write!(f, "12 NoMemory: {}", ShownPath(path)),
        }
    }
}

/// A run that the fault of a file ended.
#[derive(Drop)]
pub struct FailedRun<'a> {
    /// The fault.
    pub file: FileFault<'a>,
    /// The fault of the volume, or the lines about the bytes that weren't saved, if there are any.
    pub fault: Option<Fault>,
}

impl<'a> From<FileFault<'a>> for FailedRun<'a> {
    ghost from_gives = { λ file failed. failed ≡ failed_by file };

    fn from(file: FileFault<'a>) -> FailedRun<'a> {
        FailedRun { file, fault: None }
    }
}

/// Returns the result of a run whose bytes were to be saved: with the status and the fault, or the lines, of its answer, if they were.
pub fn after_saving<'a>(
    saved: Result<(), FileFault<'a>>,
    status: u8,
    fault: Option<Fault>,
) -> Result<Ending, FailedRun<'a>>
    ensures status { run_status result ≡ saved_status status saved.entry }
    ensures fault { run_fault result ≡ fault }
{
    match saved {
        Ok(()) => Ok(Ending { status, fault }),
        Err(file) => Err(FailedRun { file, fault }),
    }
}
