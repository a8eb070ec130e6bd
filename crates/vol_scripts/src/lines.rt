//! Reads one line of a script.
ghost use Rattle.std.specs.Prelude.{◌≡◌, ◌∷◌, ℕ, None, MatchOption};
ghost use Rattle.vol_scripts.specs.Grammar.{asked_by, step_by, step_in};
ghost use Rattle.vol_scripts.specs.Scripts.{Reads};

use crate::arguments::{
    cred_in, none_of, path_alone, path_and_bytes, path_and_device, path_and_length,
    path_and_numbers, path_and_owner, path_and_permissions, two_paths,
};
use crate::commands::Command;
use crate::numbers::long_in;
use crate::steps::ScriptStep;
use line_words::Pieces;
use std::alloc::{AllocError, Global};
use vol_dir::Cred;
use vol_volume::{Call, Query};

/// The reason why a line couldn't be read.
#[derive(Clone, Copy)]
pub(crate) enum LineFault {
    /// The line isn't valid in a script.
    Unreadable,
    /// An allocation was refused.
    NoMemory,
}

impl From<AllocError> for LineFault {
    ghost use Rattle.vol_scripts.specs.declared.lines.LineFault.TheVariants as faults;

    ghost from_gives = { λ _ fault. fault ≡ faults.NoMemory };

    fn from(_: AllocError) -> LineFault {
        LineFault::NoMemory
    }
}

/// A step that can be read from a line of a script.
pub(crate) trait FromLine: Drop {
    ghost use Rattle.std.specs.Prelude.{List, Option};

    ghost written: { List ℕ → Option Self };

    /// Reads a line. Takes memory for paths and for the bytes of a write.
    fn from_line(alloc: Global, line: &[u8]) -> Result<Self, LineFault>
        ensures { Reads (written line.now) result };
}

impl FromLine for ScriptStep {
    ghost use Rattle.vol_scripts.specs.Grammar.{step_in};

    ghost written = { step_in };

    fn from_line(alloc: Global, line: &[u8]) -> Result<ScriptStep, LineFault> {
        read_line(alloc, line)
    }
}

impl FromLine for Query {
    ghost use Rattle.vol_scripts.specs.Grammar.{query_in};

    ghost written = { query_in };

    fn from_line(alloc: Global, line: &[u8]) -> Result<Query, LineFault> {
        match read_line(alloc, line)? {
            ScriptStep::Question(query) => Ok(query),
            ScriptStep::Change(_) | ScriptStep::Cut => Err(LineFault::Unreadable),
        }
    }
}

/// Reads a step of a session from a line.
fn read_line(alloc: Global, line: &[u8]) -> Result<ScriptStep, LineFault>
    ensures { Reads (step_in line.now) result }
{
    let mut words = Pieces::of(b' ', line);
    let (command, cred, now) = head_of(&mut words).ok_or(LineFault::Unreadable)?;
    asked_by(alloc, command, cred, now, words)
}

/// Reads the beginning of a line: the command, the user and group, and the time.
fn head_of(words: &mut Pieces<'_>) -> Option<(Command, Cred, u32)>
    ensures { MatchOption result (step_by words.old ≡ None)
        (λ head. step_by words.old ≡ asked_by head.0 head.1 head.2 words.new) }
{
    let (now, uid, gid, name) = first_four_of(words)?;
    let now = long_in(now)?;
    let cred = cred_in(uid, gid)?;
    let command = Command::named(name)?;
    Some((command, cred, now))
}

/// Returns the first four words of a line.
fn first_four_of<'a>(words: &mut Pieces<'a>) -> Option<(&'a [u8], &'a [u8], &'a [u8], &'a [u8])>
    ensures { MatchOption result (step_by words.old ≡ None)
        (λ four. words.old ≡ four.0.now ∷ four.1.now ∷ four.2.now ∷ four.3.now ∷ words.new) }
{
    let first = words.take_next()?;
    let second = words.take_next()?;
    let third = words.take_next()?;
    let fourth = words.take_next()?;
    Some((first, second, third, fourth))
}

/// Reads the words after the command, and returns the step.
fn asked_by(
    alloc: Global,
    command: Command,
    cred: Cred,
    now: u32,
    words: Pieces<'_>,
) -> Result<ScriptStep, LineFault>
    ensures { Reads (asked_by command cred now words.entry) result }
{
    match command {
        Command::Create => create(alloc, cred, now, words),
        Command::Mkdir => mkdir(alloc, cred, now, words),
        Command::Link => link(alloc, cred, now, words),
        Command::Unlink => unlink(alloc, cred, now, words),
        Command::Rmdir => rmdir(alloc, cred, now, words),
        Command::Write => write(alloc, cred, now, words),
        Command::Truncate => truncate(alloc, cred, now, words),
        Command::Chmod => chmod(alloc, cred, now, words),
        Command::Chown => chown(alloc, cred, now, words),
        Command::Times => times(alloc, cred, now, words),
        Command::Mknod => mknod(alloc, cred, now, words),
        Command::Stat => stat(alloc, cred, words),
        Command::Read => read(alloc, cred, words),
        Command::List => list(alloc, cred, words),
        Command::Cut => {
            none_of(words).ok_or(LineFault::Unreadable)?;
            Ok(ScriptStep::Cut)
        }
    }
}

/// Reads the words after `create`.
fn create(alloc: Global, cred: Cred, now: u32, words: Pieces<'_>) -> Result<ScriptStep, LineFault>
    ensures { Reads (asked_by Command.Create cred now words.entry) result }
{
    let (path, perm) = path_and_permissions(alloc, words)?;
    Ok(ScriptStep::Change(Call::Create {
        cred,
        now,
        path,
        perm,
    }))
}

/// Reads the words after `mkdir`.
fn mkdir(alloc: Global, cred: Cred, now: u32, words: Pieces<'_>) -> Result<ScriptStep, LineFault>
    ensures { Reads (asked_by Command.Mkdir cred now words.entry) result }
{
    let (path, perm) = path_and_permissions(alloc, words)?;
    Ok(ScriptStep::Change(Call::Mkdir {
        cred,
        now,
        path,
        perm,
    }))
}

/// Reads the words after `link`.
fn link(alloc: Global, cred: Cred, now: u32, words: Pieces<'_>) -> Result<ScriptStep, LineFault>
    ensures { Reads (asked_by Command.Link cred now words.entry) result }
{
    let (source, target) = two_paths(alloc, words)?;
    Ok(ScriptStep::Change(Call::Link {
        cred,
        now,
        source,
        target,
    }))
}

/// Reads the words after `unlink`.
fn unlink(alloc: Global, cred: Cred, now: u32, words: Pieces<'_>) -> Result<ScriptStep, LineFault>
    ensures { Reads (asked_by Command.Unlink cred now words.entry) result }
{
    let path = path_alone(alloc, words)?;
    Ok(ScriptStep::Change(Call::Unlink { cred, now, path }))
}

/// Reads the words after `rmdir`.
fn rmdir(alloc: Global, cred: Cred, now: u32, words: Pieces<'_>) -> Result<ScriptStep, LineFault>
    ensures { Reads (asked_by Command.Rmdir cred now words.entry) result }
{
    let path = path_alone(alloc, words)?;
    Ok(ScriptStep::Change(Call::Rmdir { cred, now, path }))
}

/// Reads the words after `write`.
fn write(alloc: Global, cred: Cred, now: u32, words: Pieces<'_>) -> Result<ScriptStep, LineFault>
    ensures { Reads (asked_by Command.Write cred now words.entry) result }
{
    let (path, offset, bytes) = path_and_bytes(alloc, words)?;
    Ok(ScriptStep::Change(Call::Write {
        cred,
        now,
        path,
        offset,
        bytes,
    }))
}

/// Reads the words after `truncate`.
fn truncate(alloc: Global, cred: Cred, now: u32, words: Pieces<'_>) -> Result<ScriptStep, LineFault>
    ensures { Reads (asked_by Command.Truncate cred now words.entry) result }
{
    let (path, length) = path_and_length(alloc, words)?;
    Ok(ScriptStep::Change(Call::Truncate {
        cred,
        now,
        path,
        length,
    }))
}

/// Reads the words after `chmod`.
fn chmod(alloc: Global, cred: Cred, now: u32, words: Pieces<'_>) -> Result<ScriptStep, LineFault>
    ensures { Reads (asked_by Command.Chmod cred now words.entry) result }
{
    let (path, perm) = path_and_permissions(alloc, words)?;
    Ok(ScriptStep::Change(Call::Chmod {
        cred,
        now,
        path,
        perm,
    }))
}

/// Reads the words after `chown`.
fn chown(alloc: Global, cred: Cred, now: u32, words: Pieces<'_>) -> Result<ScriptStep, LineFault>
    ensures { Reads (asked_by Command.Chown cred now words.entry) result }
{
    let (path, owner) = path_and_owner(alloc, words)?;
    Ok(ScriptStep::Change(Call::Chown {
        cred,
        now,
        path,
        uid: owner.uid,
        gid: owner.gid,
    }))
}

/// Reads the words after `times`.
fn times(alloc: Global, cred: Cred, now: u32, words: Pieces<'_>) -> Result<ScriptStep, LineFault>
    ensures { Reads (asked_by Command.Times cred now words.entry) result }
{
    let (path, atime, mtime) = path_and_numbers(alloc, words)?;
    Ok(ScriptStep::Change(Call::Times {
        cred,
        now,
        path,
        atime,
        mtime,
    }))
}

/// Reads the words after `mknod`.
fn mknod(alloc: Global, cred: Cred, now: u32, words: Pieces<'_>) -> Result<ScriptStep, LineFault>
    ensures { Reads (asked_by Command.Mknod cred now words.entry) result }
{
    let (path, perm, device) = path_and_device(alloc, words)?;
    Ok(ScriptStep::Change(Call::Mknod {
        cred,
        now,
        path,
        perm,
        device,
    }))
}

/// Reads the words after `stat`.
fn stat(alloc: Global, cred: Cred, words: Pieces<'_>) -> Result<ScriptStep, LineFault>
    ensures { (now : ℕ) → Reads (asked_by Command.Stat cred now words.entry) result }
{
    let path = path_alone(alloc, words)?;
    Ok(ScriptStep::Question(Query::Stat { cred, path }))
}

/// Reads the words after `read`.
fn read(alloc: Global, cred: Cred, words: Pieces<'_>) -> Result<ScriptStep, LineFault>
    ensures { (now : ℕ) → Reads (asked_by Command.Read cred now words.entry) result }
{
    let (path, offset, len) = path_and_numbers(alloc, words)?;
    Ok(ScriptStep::Question(Query::Read {
        cred,
        path,
        offset,
        len,
    }))
}

/// Reads the words after `list`.
fn list(alloc: Global, cred: Cred, words: Pieces<'_>) -> Result<ScriptStep, LineFault>
    ensures { (now : ℕ) → Reads (asked_by Command.List cred now words.entry) result }
{
    let path = path_alone(alloc, words)?;
    Ok(ScriptStep::Question(Query::List { cred, path }))
}
