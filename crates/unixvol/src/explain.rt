//! Messages for failures, and their exit statuses.
ghost use Rattle.std.specs.Prelude.{◌≡◌, ◌≢◌, ◌⊎◌, ◌≤◌, None, true};
ghost use Rattle.std.specs.Io.KnownBytes.{Keeps};
ghost use Rattle.std.specs.IoError.{error_kind};
ghost use Rattle.std.specs.declared.io.ErrorKind.TheVariants as io_kinds;
ghost use Rattle.clap.specs.Words.{kind_of};
ghost use Rattle.clap.specs.declared.error.kind.ErrorKind.TheVariants as clap_kinds;
ghost use Rattle.command_reads.specs.Cat.{cat_status};
ghost use Rattle.command_faults.specs.Streams.{Hears, heard};
ghost use Rattle.unixvol.specs.FileFaults.{file_status, run_fault, run_status};
ghost use Rattle.unixvol.specs.Runs.{IsStatusOfFileOrMemory};

use crate::editions::ambiguous_words;
use crate::file_fault::{FailedRun, FileFault, NamedFile, STREAM};
use crate::host::Surroundings;
use crate::meanings::{self, meaning_of, shown};
use crate::place::taken_words;
use crate::sizes::{Sizes, sizes_in};
use crate::subject::Subject;
use clap::error::ErrorKind;
use command_faults::answer::tell;
use command_faults::status::{BAD_COMMAND_LINE, BAD_FILE, DONE, NO_MEMORY};
use command_faults::{Ending, Fault};
use command_line::reworded;
use command_reads::CatFault;
use host_files::ImageFiles;
use pdp_words::{Sink, write_all};
use std::alloc::AllocError;
use std::io::{self, Write};

/// Prints the faults of a run, that of a file first, and returns the status. If the user asked for it, a second line explains each.
pub fn tell_end<R: ImageFiles + Eprint + AllocGlobal, E: Sink>(
    host: &Surroundings<'_, R>,
    errors: &mut E,
    ended: &Result<Ending, FailedRun<'_>>,
    output: Option<io::Error>,
    subject: Option<Subject<'_>>,
) -> u8
    ensures told { Hears (heard E.contents E.failed errors.old errors.new) (run_fault ended.now) }
    ensures status { result ≡ run_status ended.now }
{
    match ended {
        Ok(ending) => {
            tell_fault(host, errors, &ending.fault, output, subject);
            ending.status
        }
        Err(failed) => {
            let status = tell_file(host, &failed.file);
            tell_fault(host, errors, &failed.fault, output, subject);
            status
        }
    }
}

/// Prints the line of a file's fault, and the second line, if the user asked for it. Returns the status.
pub fn tell_file<R: Eprint + AllocGlobal>(host: &Surroundings<'_, R>, fault: &FileFault<'_>) -> u8
    ensures { result ≡ file_status fault.now }
{
    let _ = eprintln!(host.rt; "unixvol: {fault}");
    if host.explains {
        explain_file(host, fault);
    }
    fault.status()
}

/// Prints the second line for a file's fault, if there is one. If memory runs out, the second line is left out.
fn explain_file<R: Eprint + AllocGlobal>(host: &Surroundings<'_, R>, fault: &FileFault<'_>) {
    let alloc = host.rt.alloc();
    match fault {
        FileFault::Unread(file, why) | FileFault::Unwritten(file, why) => {
            tell_why(host, *file, *why);
        }
        FileFault::UnreadBelow(path, why) => tell_why(host, NamedFile::File(path.as_str()), *why),
        FileFault::Uncopied(place, why) => tell_why(host, NamedFile::File(place.as_str()), *why),
        FileFault::Short(path, block) => {
            tell_words(
                host,
                path,
                format!(in alloc; "it ends before block {block}"),
            );
        }
        FileFault::Small(path, blocks) => {
            tell_words(host, path, format!(in alloc; "it has only {blocks} blocks"));
        }
        FileFault::Taken(path, part) => tell_words(host, path, taken_words(alloc, *part)),
        FileFault::Ambiguous(volume, verdicts) => {
            if let Ok(meaning) = ambiguous_words(alloc, *volume, *verdicts) {
                let _ = eprintln!(host.rt; "unixvol: {meaning}");
            }
        }
        FileFault::NoMemory | FileFault::NoMemoryFor(_) => {
            let words = meanings::NO_MEMORY;
            let _ = eprintln!(host.rt; "unixvol: {words}");
        }
        FileFault::Moment(_) => {}
    }
}

/// Prints the second line for the file at a path, with these words.
fn tell_words<R: Eprint + AllocGlobal>(
    host: &Surroundings<'_, R>,
    path: &str,
    words: Result<String, AllocError>,
) {
    if let (Ok(name), Ok(words)) = (shown(host.rt.alloc(), path), words) {
        let _ = eprintln!(host.rt; "unixvol: {name}: {words}");
    }
}

/// Returns the reason why a device failed: its last error, if one is available.
pub fn reason_of(error: Option<io::Error>) -> io::Error {
    error.unwrap_or(io::Error::from(io::ErrorKind::Other))
}

/// Prints the second line for a file that failed, if the user asked for it.
pub fn tell_why<R: Eprint + AllocGlobal>(
    host: &Surroundings<'_, R>,
    file: NamedFile<'_>,
    why: io::Error,
) {
    if !host.explains {
        return;
    }
    if let Ok(name) = shown(host.rt.alloc(), file.in_words()) {
        let _ = eprintln!(host.rt; "unixvol: {name}: {why}");
    }
}

/// Prints the line of a fault, if a run had one, and the second line, if the user asked for it.
pub fn tell_fault<R: ImageFiles + Eprint + AllocGlobal, E: Sink>(
    host: &Surroundings<'_, R>,
    errors: &mut E,
    fault: &Option<Fault>,
    output: Option<io::Error>,
    subject: Option<Subject<'_>>,
)
    ensures { Hears (heard E.contents E.failed errors.old errors.new) fault.now }
{
    tell(fault, errors);
    explain(host, fault, output, subject);
}

/// Prints the second line of a run, if the user asked for it: the system's error if standard output failed, else the meaning of the fault, if
/// [`meaning_of`] has one. If memory runs out, the second line is left out.
fn explain<R: ImageFiles + Eprint + AllocGlobal>(
    host: &Surroundings<'_, R>,
    fault: &Option<Fault>,
    output: Option<io::Error>,
    subject: Option<Subject<'_>>,
) {
    if !host.explains {
        return;
    }
    if let Some(why) = output {
        return tell_why(host, NamedFile::Output, why);
    }
    let Some(subject) = subject else {
        return;
    };
    let Some(fault) = fault else {
        return;
    };
    let sizes = sizes_of(host, fault, subject);
    if let Ok(Some(meaning)) = meaning_of(host.rt.alloc(), fault, subject, sizes) {
        let _ = eprintln!(host.rt; "unixvol: {meaning}");
    }
}

/// Returns the sizes in an image that breaks rule 1 or rule 2.
fn sizes_of<R: ImageFiles + AllocGlobal>(
    host: &Surroundings<'_, R>,
    fault: &Fault,
    subject: Subject<'_>,
) -> Option<Sizes> {
    let rule = match fault {
        Fault::Unsound(rule) => *rule,
        Fault::Worded { rule, .. } => rule.unwrap_or(0),
        _ => 0,
    };
    if rule == 1 || rule == 2 {
        sizes_in(host.rt, subject.image, subject.at, subject.edition)
    } else {
        None
    }
}

/// Prints which documents have the rules and their definitions, if the user asked for a second line, and it was a check that ended with the `status` of a
/// broken rule.
pub fn explain_rules<R: Eprint>(host: &Surroundings<'_, R>, is_check: bool, status: u8) {
    let is_broken = !matches!(status, DONE | BAD_FILE | NO_MEMORY);
    if host.explains && is_broken && is_check {
        let place = meanings::RULES_ARE_IN;
        let _ = eprintln!(host.rt; "unixvol: {place}");
    }
}

/// Prints the line of a fault of `cat`, and returns the result of the run. The second line for standard output is printed when the run has ended.
pub fn explain_cat<R: ImageFiles + Eprint + AllocGlobal>(
    host: &Surroundings<'_, R>,
    fault: CatFault,
    subject: Subject<'_>,
) -> Ending
    ensures status { result.status ≡ cat_status fault }
    ensures quiet { result.fault ≡ None }
{
    // If standard error can't be written either, only the status reports the fault.
    let line = fault.line();
    let _ = eprint!(host.rt; "{line}");
    explain(host, &fault.as_fault(), None, Some(subject));
    Ending {
        status: fault.status(),
        fault: None,
    }
}

/// Prints the text for a wrong command line, or the requested help, and returns the exit status.
pub fn explain_command_line<R: Eprint + AllocGlobal, O: Sink>(
    host: &Surroundings<'_, R>,
    output: &mut O,
    error: &clap::Error,
) -> u8
    ensures memory { kind_of error.now ≡ clap_kinds.OutOfMemory → result ≡ 4 }
    ensures mistake { kind_of error.now ≢ clap_kinds.OutOfMemory → kind_of error.now ≢ clap_kinds.DisplayHelp
        → kind_of error.now ≢ clap_kinds.DisplayVersion → result ≡ 2 }
    ensures shown { (kind_of error.now ≡ clap_kinds.DisplayHelp) ⊎ (kind_of error.now ≡ clap_kinds.DisplayVersion)
        → (result ≡ 0) ⊎ IsStatusOfFileOrMemory result }
    ensures failed { result ≡ 3 → O.failed output.new ≡ true }
    ensures within { result ≤ 4 }
    ensures silent { result ≢ 0 → result ≢ 3 → Keeps (O.contents output.old) (O.contents output.new) }
    ensures whole { result ≡ 0 → O.failed output.new ≡ O.failed output.old }
{
    if error.kind() == ErrorKind::OutOfMemory {
        return tell_file(host, &FileFault::NoMemory);
    }
    if error.use_stderr() {
        tell_mistake(host, error);
        return BAD_COMMAND_LINE;
    }
    let Ok(text) = format!(in host.rt.alloc(); "{error}") else {
        return tell_file(host, &FileFault::NoMemory);
    };
    match write_all(output, text.as_bytes()) {
        Ok(()) => DONE,
        Err(_) => explain_unshown(host),
    }
}

/// Prints the text for a mistake on the command line, reworded if there is a better text.
fn tell_mistake<R: Eprint + AllocGlobal>(host: &Surroundings<'_, R>, error: &clap::Error) {
    let _ = match reworded(host.rt.alloc(), host.words, error) {
        Ok(Some(better)) => host.rt.eprint(&better),
        Ok(None) | Err(_) => host.rt.eprint(error),
    };
}

/// Prints that standard output can't be written, and returns the status. Its second line is printed when the run has ended.
fn explain_unshown<R: Eprint>(host: &Surroundings<'_, R>) -> u8
    ensures { result ≡ 3 }
{
    let _ = eprintln!(host.rt; "unixvol: cannot write {STREAM}");
    BAD_FILE
}

/// Flushes standard output if the status is 0, and returns the exit status.
pub fn finish<R: Eprint + AllocGlobal, W: Write + Drop>(
    host: &Surroundings<'_, R>,
    output: W,
    status: u8,
) -> u8
    ensures { (result ≡ status) ⊎ ((status ≡ 0) × (result ≡ 3)) }
{
    if status == DONE {
        return flush(host, output, status);
    }
    status
}

/// Flushes standard output as [`finish`] does, after a run that may have printed something with any status.
pub fn finish_printed<R: Eprint + AllocGlobal, W: Write + Drop>(
    host: &Surroundings<'_, R>,
    output: W,
    status: u8,
) -> u8
    ensures { (result ≡ status) ⊎ (result ≡ 3) }
{
    if status != BAD_FILE {
        return flush(host, output, status);
    }
    status
}

/// Flushes standard output, and returns `status`, or the status of a failure.
fn flush<R: Eprint + AllocGlobal, W: Write + Drop>(
    host: &Surroundings<'_, R>,
    mut output: W,
    status: u8,
) -> u8
    ensures { (result ≡ status) ⊎ (result ≡ 3) }
{
    match output.flush() {
        Ok(()) => status,
        Err(why) => tell_file(host, &FileFault::Unwritten(NamedFile::Output, why)),
    }
}

/// Prints why the words of the command line can't be read, and returns the status. `place` is the number of the word that isn't UTF-8, if it could be
/// found: 1 is the first word after the program's name.
pub fn explain_words(rt: &impl Eprint, error: &io::Error, place: Option<usize>) -> u8
    ensures memory { error_kind error.now ≡ io_kinds.OutOfMemory → result ≡ 4 }
    ensures mistake { error_kind error.now ≢ io_kinds.OutOfMemory → result ≡ 2 }
    ensures status { (result ≡ 2) ⊎ (result ≡ 4) }
{
    if error.kind() == io::ErrorKind::OutOfMemory {
        let _ = eprintln!(rt; "unixvol: {}", FileFault::NoMemory);
        return NO_MEMORY;
    }
    let _ = match place {
        Some(place) => eprintln!(rt; "error: word {place} of the command line is not UTF-8 text"),
        None => eprintln!(rt; "error: a word of the command line is not UTF-8 text"),
    };
    BAD_COMMAND_LINE
}
