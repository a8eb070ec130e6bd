//! Lists, reads, changes and makes disk images of Sixth and Seventh Edition Unix.
#![tactic(auto)]

mod build;
mod build_list;
mod changes;
mod commands;
mod compare;
mod copy;
mod editions;
mod explain;
mod file_fault;
mod get_trees;
mod guesses;
mod hints;
mod host;
mod identify;
mod identify_below;
mod line_meanings;
mod look_bad;
mod looks;
mod meanings;
mod mounted;
mod packed;
mod place;
mod read;
mod repair_bad;
mod replaced;
mod rescue;
mod resize;
mod save;
mod serve;
mod sizes;
mod subject;
mod sync;
mod threads;
mod words;

use command_line::Invocation;
use host::Surroundings;
use host_files::{ProgressLine, WatchedHost};
use std::io::IsTerminal;
use std::process::ExitCode;
use std::rt::Clock;
use std::time::{SystemTime, UNIX_EPOCH};

/// Reads the words of the command line, and continues in one of several functions. Each has only the rights that it needs: only commands with several
/// threads may wait, only those that show part of an image may print something and fail, only a change and a server read standard input, and only
/// those that copy files to the host save several files.
fn main(rt: HostRuntime) -> ExitCode {
    let words = match words::words(&rt) {
        Ok(words) => words,
        Err(error) => {
            let place = words::place_of_no_text(&rt);
            return ExitCode::from(explain::explain_words(&rt, &error, place));
        }
    };
    let errors = rt.stderr();
    let is_watched = errors.is_terminal();
    let line = ProgressLine::new(looks::wants_progress(&rt, words.as_slice(), is_watched));
    let watched = WatchedHost::new(&rt, &line);
    let host = Surroundings::new(&watched, words.as_slice(), is_watched);
    let errors = watched.errors(errors);
    let output = rt.stdout();
    let screen = looks::screen(&rt, output.is_terminal());
    let output = watched.output(output);
    let read = match editions::read_settled(&watched, moment(&rt), words.as_slice()) {
        Ok(read) => read,
        Err(fault) => return ExitCode::from(explain::tell_file(&host, &fault)),
    };
    let status = match read {
        Ok(Invocation::Work { volume, work }) => {
            threads::run_to_end(&host, screen, output, errors, volume, work)
        }
        Ok(Invocation::Look { volume, look }) => {
            looks::run_to_end(&host, screen, output, errors, volume, look)
        }
        Ok(
            Invocation::Change {
                volume,
                change,
                trace,
            },
        ) => {
            let input = rt.stdin();
            let is_terminal = input.is_terminal();
            changes::run_to_end(
                &host,
                input,
                is_terminal,
                output,
                errors,
                volume,
                change,
                trace,
            )
        }
        Ok(Invocation::Copy { volume, copying }) => {
            copy::run_to_end(&host, output, errors, volume, copying)
        }
        Ok(Invocation::Serve { volume, serving }) => {
            // A server runs beside a shell that may have the same terminal.
            line.end(&rt);
            serve::run_to_end(&host, rt.stdin(), output, errors, volume, serving)
        }
        Ok(
            Invocation::LookBad {
                volume,
                image,
                look,
            },
        ) => look_bad::run_to_end(&host, screen, output, errors, volume, image, look),
        Ok(
            Invocation::RepairBad {
                volume,
                image,
                copy,
                repairing,
            },
        ) => repair_bad::run_to_end(&host, output, errors, volume, image, copy, repairing),
        Ok(Invocation::Diff { volume, other, by }) => {
            compare::run_to_end(&host, output, errors, volume, other, by)
        }
        Ok(
            Invocation::Identify {
                images,
                form,
                is_deep: false,
            },
        ) => identify::run_to_end(&host, output, errors, form, &images),
        Ok(
            Invocation::Identify {
                images,
                form,
                is_deep: true,
            },
        ) => identify_below::run_to_end(&host, output, errors, form, &images),
        read => commands::run_to_end(&host, output, errors, read),
    };
    line.end(&rt);
    status
}

/// Returns the time of the system's clock, in seconds since the beginning of 1970. Returns `None` if the clock can't be read, or is before 1970 or
/// after 2106.
fn moment<R: Clock>(rt: &R) -> Option<u32> {
    let now = SystemTime::now(rt).ok()?;
    let since = now.duration_since(UNIX_EPOCH).ok()?;
    u32::try_from(since.as_secs()).ok()
}
